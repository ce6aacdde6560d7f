// O ang: whether the Thai letter U+0E2D is silent (romanize.rs). It is unless it stands between consonants, and for the one
// before it the edges are walked back over what is silent too.
#![tactic(auto)]

ghost use Rattle.std.specs.Prelude.{◌&&◌, [], ◌∷◌, ◌≡◌, ◌≤◌, eqb, ltb};
ghost use Rattle.base.specs.Lists.{is};
ghost use Rattle.definition.specs.Texts.{Text, last_is, at, prev};
ghost use Rattle.definition.specs.Tables.{script_thai};
ghost use Rattle.definition.specs.RuleRows.{rules_of};
ghost use Rattle.definition.specs.Classes.{script};
ghost use Rattle.definition.specs.Rules.{first_rule};
ghost use Rattle.definition.specs.Expansion.{work, stretch_start, walk_start, o_ang_side, between, silent};
ghost use Rattle.words.specs.Given.{World, kinds, seen, size_in, Lined, Lent};
ghost use Rattle.words.specs.Choosing.{choices_of};
ghost use Rattle.o_ang.specs.Sides.{beside};

use steps::Growing;
use words::characters::{O_ANG, SPACE};
use words::{Choices, Dicts};

// Is a text one or more of the consonants beside which O ang is spoken?
#[tactic(auto, using(crate::proofs::Sounds::none_beside, crate::proofs::Sounds::some_beside))]
fn is_beside(text: &[u8]) -> bool
    ensures { result ≡ beside text.now }
{
    !text.is_empty() && rom::all_in(text, rom::O_ANG_SIDE)
}

// Is what the first rule of a character says one or more of the consonants beside which O ang is spoken?
#[tactic(auto, using(crate::proofs::Sounds::beside_text))]
fn starts_beside(dicts: &Dicts, c: u32) -> bool
    ensures { result ≡ is beside (first_rule (rules_of dicts.now.rules.now) (c ∷ [])) }
{
    let target = rule_choice::romanization_by_first_rule(dicts, &[c]);
    is_beside(rule_choice::chosen_text(dicts.rules, target))
}

// Are both neighbours of the span Thai?
fn is_in_thai(line: &[u32], g: Growing) -> bool
    requires { (g.from ≤ g.to) × (g.to ≤ size_in line.now) × (1 ≤ g.to) }
    ensures { (x : World) → Lined x line.now
        → result ≡ (eqb (script (kinds x) (prev x.text g.from)) script_thai && eqb (script (kinds x) (at x.text g.to)) script_thai) }
{
    table_classes::script(words::kind_at(line, g.from)) == table_classes::THAI
        && table_classes::script(words::kind_at(line, g.to + 1)) == table_classes::THAI
}

// Does a space, which ends the walk back, stand among the characters from `from` up to `to`?
fn has_space(line: &[u32], from: usize, to: usize) -> bool
    requires { to ≤ size_in line.now }
    ensures { (x : World) → Lined x line.now → result ≡ ltb from (stretch_start x.text to) }
{
    for i in (from..to).rev() {
        if words::number_at(line, i + 1) == SPACE {
            return true;
        }
    }
    false
}

// Does the walk back from `to` end behind `from`? Where that is chosen, a space ends it.
fn ends_between(choices: Choices, line: &[u32], from: usize, to: usize) -> bool
    requires { to ≤ size_in line.now }
    ensures { (x : World) → Lined x line.now → result ≡ ltb from (walk_start (choices_of choices) x.text to) }
{
    choices.o_ang == 1 && has_space(line, from, to)
}

// `find_rom_edge_path_backwards_str`, as far as it is asked: does the nearest text to the left of `p` that is not empty, as far
// back as the walk goes, end in a consonant beside which O ang is spoken? From `clear` on to `p` there is nothing that ends it.
fn is_after_side(choices: Choices, line: &[u32], places: &[u32], p: usize) -> bool
    requires { p ≤ size_in line.now }
    ensures { (x : World) → Lent x line.now places.now
        → result ≡ last_is o_ang_side ((seen x).behind (walk_start (choices_of choices) x.text p) p) }
{
    let mut at = p;
    let mut clear = p;
    // A `while`: each turn goes back by as much as places tell, and no range or chain steps so.
    while 0 < at {
        if ends_between(choices, line, at - 1, clear) {
            return false;
        }
        clear = at - 1;
        let x = edge_places::entry(places, at);
        if edge_places::is_spoken(x) {
            return edge_places::is_side(x);
        }
        at = edge_places::step_back(x, at);
    }
    false
}

// Does the span stand between Thai consonants?
fn is_between(choices: Choices, dicts: &Dicts, line: &[u32], places: &[u32], g: Growing) -> bool
    requires { (g.from ≤ g.to) × (g.to ≤ size_in line.now) × (1 ≤ g.to) }
    ensures { (x : World) (w : Text) → Lent x line.now places.now
        → result ≡ between (choices_of choices) (rules_of dicts.now.rules.now) (kinds x) x.text (seen x) (work w g.from g.to g.note) }
{
    is_in_thai(line, g)
        && is_after_side(choices, line, places, g.from)
        && starts_beside(dicts, words::number_at(line, g.to + 1))
}

// O ang alone is silent unless it stands between Thai consonants.
pub fn is_silent(
    choices: Choices,
    dicts: &Dicts,
    line: &[u32],
    places: &[u32],
    o: usize,
    g: Growing,
) -> bool
    requires { (g.from ≤ g.to) × (g.to ≤ size_in line.now) × (1 ≤ g.to) × (o ≤ size_in line.now) }
    ensures { (x : World) (w : Text) → Lent x line.now places.now
        → result ≡ silent (choices_of choices) (rules_of dicts.now.rules.now) (kinds x) x.text (seen x) o (work w g.from g.to g.note) }
{
    words::number_at(line, o + 1) == O_ANG
        && g.from + 1 == g.to
        && !is_between(choices, dicts, line, places, g)
}
