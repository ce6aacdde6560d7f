// The second pass of building the lattice (romanize.rs, lattice/mod.rs): a fallback for each character that no edge
// covers. The first that finds no slot or no room ends it.
#![tactic(auto)]

ghost use Rattle.std.specs.Prelude.{◌≡◌, List, ℕ, ◌+◌, ◌<◌};
ghost use Rattle.base.specs.Pick.{pick};
ghost use Rattle.base.specs.Lists.{has};
ghost use Rattle.definition.specs.Building.{fall};
ghost use Rattle.edge.specs.Slots.{two_bytes};
ghost use Rattle.words.specs.Given.{size_in, kind_in, alpha_kind};
ghost use Rattle.rule_choice.specs.Chosen.{chosen_means};
ghost use Rattle.passes.specs.Reached.{addressable, Somewhere};
ghost use Rattle.passes.specs.Endings.{last_letter};
ghost use Rattle.second_pass.specs.Falls.{put_fallback};
ghost use Rattle.second_pass.specs.Fallback.{search_note, single_numbers, At, Bare};
ghost use Rattle.second_pass.specs.Starts.{Standing};
ghost use Rattle.second_pass.specs.SecondPass.{FallReady, FallsBack, SecondPass};

use edge::{Filled, Full, Numbers, Taken};
use rule_choice::Target;
use words::{Dicts, Span};

// A position of the text, and where its bytes begin.
#[derive(Clone, Copy)]
pub struct Here {
    pub p: usize,
    pub at: usize,
}

// The annotation of what simple search answered, and of the character itself.
fn search_note(chosen: Option<Target>) -> u8
    ensures { (rules : List ℕ) → result ≡ search_note (chosen_means rules chosen) }
{
    if chosen.is_some() {
        return edge::SINGLE;
    }
    edge::ORIG
}

// An edge over one character.
fn single(p: usize, note: u8) -> Numbers
    requires { p < two_bytes }
    ensures { result ≡ single_numbers p note }
{
    Numbers {
        from: p,
        to: p + 1,
        note,
        core: 0,
    }
}

// Does the text of a fallback end in a letter: a target, which is ASCII, or else the character itself?
fn falls_on_letter(
    ready: &[u32],
    line: &[u32],
    chosen: Option<Target>,
    text: &[u8],
    p: usize,
) -> bool
    requires { p < size_in line.now }
    ensures { (rules : List ℕ) → result ≡ pick (has (chosen_means rules chosen)) (last_letter ready.now text.now)
        (alpha_kind (kind_in line.now (p + 1))) }
{
    if chosen.is_some() {
        return passes::ends_in_letter(ready, text);
    }
    words::is_alpha_at(line, p + 1)
}

// The fallback of one character (`get_fallback_rom_and_annot`): by its category, else by simple search, else the
// character itself. No edge equals it: none goes over this one character.
fn add_fallback<'a>(
    dicts: &Dicts<'a>,
    text: &'a [u8],
    line: &[u32],
    slots: &mut [u8],
    room: &mut [u8],
    places: &mut [u32],
    filled: Filled,
    here: Here,
) -> Result<Taken, Full>
    requires { At text.now line.now here × (filled.used < addressable) × Somewhere dicts.now.ready.now line.now slots.old room.old places.old filled × Bare slots.old room.old filled here.p }
    ensures { FallsBack dicts.now.rules.now dicts.now.ready.now dicts.now.code.now line.now filled (λ D t. put_fallback D t here.p)
        (slots.old, room.old, places.old) (slots.new, room.new, places.new) result }
{
    let note = spans::category_note(table_classes::category(words::kind_at(line, here.p + 1)));
    let numbers = single(here.p, note);
    if note == edge::ZS {
        return noting::add_edge(
            slots,
            room,
            places,
            filled,
            numbers,
            b" ",
            noting::ending_of(b" ", false),
        );
    }
    if note != edge::UNTOUCHED {
        return noting::add_edge(
            slots,
            room,
            places,
            filled,
            numbers,
            b"",
            noting::ending_of(b"", false),
        );
    }
    let span = Span {
        from: here.p,
        to: here.p + 1,
    };
    let chosen = rule_choice::simple_top_romanization_candidate_for_span(dicts, line, places, span);
    let len = utf8::encoded_len(words::number_at(line, here.p + 1));
    let own = spans::fallback_text(dicts.rules, text, chosen, here.at, len);
    let end = noting::ending_of(own, falls_on_letter(dicts.ready, line, chosen, own, here.p));
    noting::add_edge(
        slots,
        room,
        places,
        filled,
        single(here.p, search_note(chosen)),
        own,
        end,
    )
}

// One start of the second pass: a fallback, unless an edge goes over the one character there.
fn fall_back_at<'a>(
    dicts: &Dicts<'a>,
    text: &'a [u8],
    line: &[u32],
    slots: &mut [u8],
    room: &mut [u8],
    places: &mut [u32],
    filled: Filled,
    here: Here,
) -> Result<Taken, Full>
    requires { At text.now line.now here × (filled.used < addressable) × Somewhere dicts.now.ready.now line.now slots.old room.old places.old filled × (filled.since ≡ filled.count) }
    ensures { FallsBack dicts.now.rules.now dicts.now.ready.now dicts.now.code.now line.now filled (λ D t. fall D t here.p)
        (slots.old, room.old, places.old) (slots.new, room.new, places.new) result }
{
    if edge_places::is_covered(places, here.p) {
        return Ok(Taken {
            count: filled.count,
            used: filled.used,
        });
    }
    add_fallback(dicts, text, line, slots, room, places, filled, here)
}

// `add_rom_fall_back_singles`: from every start, behind the edges that are there. Of each start it is kept which
// fallback is its own.
pub fn add_rom_fall_back_singles<'a>(
    dicts: &Dicts<'a>,
    text: &'a [u8],
    line: &[u32],
    slots: &mut [u8],
    room: &mut [u8],
    places: &mut [u32],
    starts: &mut [u32],
    filled: Filled,
) -> Result<Taken, Full>
    requires { FallReady dicts.now.rules.now dicts.now.ready.now text.now line.now slots.old room.old places.old starts.old filled }
    ensures built { SecondPass dicts.now.rules.now dicts.now.ready.now dicts.now.code.now line.now filled
        (slots.old, room.old, places.old) (slots.new, room.new, places.new) result }
    ensures starts { Standing slots.new starts.new result }
{
    let n = words::text_len(line);
    let first = filled.count;
    let mut taken = Taken {
        count: first,
        used: filled.used,
    };
    let mut at: usize = 0;
    for p in 0..n {
        let before = taken.count;
        let so_far = Filled {
            count: before,
            used: taken.used,
            since: before,
        };
        taken = fall_back_at(
            dicts,
            text,
            line,
            slots,
            room,
            places,
            so_far,
            Here { p, at },
        )?;
        if before < taken.count {
            standing::fall_at(starts, p, before - first);
        }
        at += utf8::encoded_len(words::number_at(line, p + 1));
    }
    Ok(taken)
}
