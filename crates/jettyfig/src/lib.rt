// The call: a text romanized by four lent tables and a language code, in lent slots and text room, into a lent output; or
// one numbered refusal. Nothing is assumed of what is lent.
#![tactic(auto)]

ghost use Rattle.std.specs.Prelude.{List, true, ◌≡◌, ℕ, ◌+◌, ◌-◌, ◌*◌, ◌≤◌, ◌<◌, length, take, replicate, IfOk, MatchResult};
ghost use Rattle.std.proofs.Math.Option.{none};
ghost use Rattle.definition.specs.Limits.{most_mode, most_choice, most_characters};
ghost use Rattle.definition.specs.Refusals.{placed};
ghost use Rattle.definition.specs.Utf8.{decoded};
ghost use Rattle.definition.specs.ClassRows.{class_fault};
ghost use Rattle.definition.specs.RuleFaults.{rule_fault};
ghost use Rattle.definition.specs.Call.{Inputs, text_refusal, uncounted, called};
ghost use Rattle.table_blocks.specs.Faults.{table_means};
ghost use Rattle.utf8.specs.Lines.{line_spaces};
ghost use Rattle.words.specs.Given.{size_in, form_entries, choices_in, mode_in, all_ready, line_in};
ghost use Rattle.output.specs.Whole.{Whole};
ghost use Rattle.jettyfig.specs.declared.Refusal.TheVariants as refused;
ghost use Rattle.jettyfig.specs.Verdicts.{refusal_means, verdict_means, of_text, of_full, of_unfit, table_number, Indexed, choose, mode_number, capitals_number, o_ang_number, readings_number};
ghost use Rattle.jettyfig.specs.Verdicts.{chosen, given, answered, returned, by_asked, by_tables, by_code};
ghost use Rattle.jettyfig.specs.Memory.{Lent};
ghost use Rattle.jettyfig.specs.Steps.{few_characters, with_kinds, LineRoom, Blank, asking, Fresh, TextReady, MadeReady, FinishReady, RomanizeReady};
ghost use Rattle.jettyfig.specs.Steps.{Writes, Finishes, Romanizes, TextSet, SetsUp};

use decomp::Unfit;
use edge::{Filled, Full};
use output::Built;
use rule_row_faults::{Fault, RuleFault};
use table_blocks::TableFault;
use utf8::TextFault;
use words::Dicts;

// What is kept for a text stands in arrays, and an array is written whole: so there are two sizes of each, and a text of so many
// characters has the smaller ones. No character has more bytes than these.
const SHORT: usize = 512;

const MOST_CHARACTER_BYTES: usize = 4;

// What is prepared: what is made ready, and behind it the text between spaces and the classes of its characters.
const SHORT_PREPARED: usize = words::READY + 2 * (SHORT + utf8::LINE_SPACES);

const LONG_PREPARED: usize = words::READY + 2 * (utf8::MOST_CHARACTERS + utf8::LINE_SPACES);

// An entry for each position, the text's end too.
const SHORT_PLACES: usize = SHORT + 1;

const LONG_PLACES: usize = utf8::MOST_CHARACTERS + 1;

// Bytes of a listing's header, and of its rows at most.
const HEAD_BYTES: usize = 5;

const MOST_LISTED: usize = 4294967295;

// Of so many characters it is told whether they are letters.
const ASCII: usize = 128;

// The letters of a language code.
const CODE_LETTERS: usize = 3;

// What a call returns: 0, the output's length and the number of edges; or a refusal's number and its place.
#[repr(C)]
#[derive(Clone, Copy)]
pub struct Answer {
    pub number: u64,
    pub place: u64,
    pub length: u64,
    pub edges: u64,
}

// The tables besides the rules. Of their faults the row is told, and no kind.
#[derive(Clone, Copy, Debug, PartialEq, Eq)]
pub enum Table {
    Classes,
    Vowels,
    Decompositions,
}

// What a call is refused for, and where; `number` and `place` say it as an answer does.
#[derive(Clone, Copy, Debug, PartialEq, Eq)]
pub enum Refusal {
    // The mode, or a choice, is none that there is.
    Mode,
    Capitals,
    OAng,
    Readings,
    // The rule table has this fault at this offset; another table's first faulty row is at this one.
    Rules { kind: Fault, at: usize },
    Table { table: Table, at: usize },
    // The language code is neither empty nor three letters a to z.
    Code,
    // The text is not UTF-8 from this offset on, has too many characters, or one at this position that is left out.
    NotUtf8 { at: usize },
    TooLong,
    LeftOut { at: usize },
    // The edge that starts at this position finds no slot, or too little text room, or its text is too long.
    NoSlot { at: usize },
    NoRoom { at: usize },
    EdgeText { at: usize },
    // The listing has more rows than the length before them can tell; the output has fewer bytes than are needed.
    Listing,
    Output { needed: usize },
}

impl Refusal {
    // The number of each, as the definition names them; those of the rule table, 20 to 25, are rule_row_faults'.
    pub fn number(self) -> u64
        ensures { result ≡ (refusal_means self).number }
    {
        match self {
            Refusal::Mode => 1,
            Refusal::Capitals => 12,
            Refusal::OAng => 15,
            Refusal::Readings => 17,
            Refusal::Rules { kind, at: _ } => kind.number(),
            Refusal::Table { table, at: _ } => match table {
                Table::Classes => 3,
                Table::Vowels => 4,
                Table::Decompositions => 13,
            },
            Refusal::Code => 5,
            Refusal::NotUtf8 { at: _ } => 6,
            Refusal::TooLong => 7,
            Refusal::LeftOut { at: _ } => 8,
            Refusal::NoSlot { at: _ } => 9,
            Refusal::NoRoom { at: _ } => 10,
            Refusal::EdgeText { at: _ } => 14,
            Refusal::Listing => 19,
            Refusal::Output { needed: _ } => 11,
        }
    }

    // Where, or how many: 0 where there is nothing to say.
    pub fn place(self) -> u64
        ensures { result ≡ (refusal_means self).place }
    {
        match self {
            Refusal::Rules { kind: _, at } => at as u64,
            Refusal::Table { table: _, at } => at as u64,
            Refusal::NotUtf8 { at } => at as u64,
            Refusal::TooLong => utf8::MOST_CHARACTERS as u64,
            Refusal::LeftOut { at } => at as u64,
            Refusal::NoSlot { at } => at as u64,
            Refusal::NoRoom { at } => at as u64,
            Refusal::EdgeText { at } => at as u64,
            Refusal::Output { needed } => needed as u64,
            Refusal::Mode => 0,
            Refusal::Capitals => 0,
            Refusal::OAng => 0,
            Refusal::Readings => 0,
            Refusal::Code => 0,
            Refusal::Listing => 0,
        }
    }
}

impl From<RuleFault> for Refusal {
    ghost from_gives = { λ fault refusal. refusal ≡ refused.Rules fault.kind fault.at };

    fn from(fault: RuleFault) -> Refusal {
        Refusal::Rules {
            kind: fault.kind,
            at: fault.at,
        }
    }
}

impl From<TextFault> for Refusal {
    ghost from_gives = { λ fault refusal. refusal ≡ of_text fault };

    fn from(fault: TextFault) -> Refusal {
        match fault {
            TextFault::NotUtf8 { at } => Refusal::NotUtf8 { at },
            TextFault::TooLong => Refusal::TooLong,
            TextFault::LeftOut { at } => Refusal::LeftOut { at },
        }
    }
}

impl From<Full> for Refusal {
    ghost from_gives = { λ full refusal. refusal ≡ of_full full };

    fn from(full: Full) -> Refusal {
        match full {
            Full::Slots { at } => Refusal::NoSlot { at },
            Full::Room { at } => Refusal::NoRoom { at },
        }
    }
}

impl From<Unfit> for Refusal {
    ghost from_gives = { λ unfit refusal. refusal ≡ of_unfit unfit };

    fn from(unfit: Unfit) -> Refusal {
        match unfit {
            Unfit::Slots { at } => Refusal::NoSlot { at },
            Unfit::Room { at } => Refusal::NoRoom { at },
            Unfit::TooLong { at } => Refusal::EdgeText { at },
        }
    }
}

// What a call that is not refused has done: so many bytes are written, of so many edges.
#[derive(Clone, Copy, Debug, PartialEq, Eq)]
pub struct Romanized {
    pub length: usize,
    pub edges: usize,
}

impl From<Result<Romanized, Refusal>> for Answer {
    ghost from_gives = { λ called answer. answer ≡ answered called };

    fn from(called: Result<Romanized, Refusal>) -> Answer {
        match called {
            Ok(romanized) => Answer {
                number: 0,
                place: 0,
                length: romanized.length as u64,
                edges: romanized.edges as u64,
            },
            Err(refusal) => Answer {
                number: refusal.number(),
                place: refusal.place(),
                length: 0,
                edges: 0,
            },
        }
    }
}

// What a call shows: the path's string, a listing of the path's edges, with their alternatives, or of all edges.
#[derive(Clone, Copy, Debug, PartialEq, Eq)]
pub enum Mode {
    String,
    Path,
    Alternatives,
    AllEdges,
}

impl TryFrom<u8> for Mode {
    type Error = Refusal;

    ghost try_from_gives = { λ n mode. MatchResult mode (λ m. mode_number m ≡ n) (λ r. (r ≡ refused.Mode) × (most_mode < n)) };

    fn try_from(n: u8) -> Result<Mode, Refusal> {
        match n {
            0 => Ok(Mode::String),
            1 => Ok(Mode::Path),
            2 => Ok(Mode::Alternatives),
            3 => Ok(Mode::AllEdges),
            _ => Err(Refusal::Mode),
        }
    }
}

// What becomes of a character's romanization in upper case before another of lower case: it stays, or only its first letter does.
#[derive(Clone, Copy, Debug, PartialEq, Eq)]
pub enum Capitals {
    Stay,
    FirstStays,
}

impl TryFrom<u8> for Capitals {
    type Error = Refusal;

    ghost try_from_gives = { λ n choice. MatchResult choice (λ c. capitals_number c ≡ n) (λ r. (r ≡ refused.Capitals) × (most_choice < n)) };

    fn try_from(n: u8) -> Result<Capitals, Refusal> {
        match n {
            0 => Ok(Capitals::Stay),
            1 => Ok(Capitals::FirstStays),
            _ => Err(Refusal::Capitals),
        }
    }
}

// How far back a consonant is looked for before U+0E2D: to the text's start, or to the nearest space.
#[derive(Clone, Copy, Debug, PartialEq, Eq)]
pub enum OAng {
    ToStart,
    ToSpace,
}

impl TryFrom<u8> for OAng {
    type Error = Refusal;

    ghost try_from_gives = { λ n choice. MatchResult choice (λ c. o_ang_number c ≡ n) (λ r. (r ≡ refused.OAng) × (most_choice < n)) };

    fn try_from(n: u8) -> Result<OAng, Refusal> {
        match n {
            0 => Ok(OAng::ToStart),
            1 => Ok(OAng::ToSpace),
            _ => Err(Refusal::OAng),
        }
    }
}

// Whether a rule's end-of-syllable target is an alternative where its own target was taken.
#[derive(Clone, Copy, Debug, PartialEq, Eq)]
pub enum Readings {
    Unlisted,
    Listed,
}

impl TryFrom<u8> for Readings {
    type Error = Refusal;

    ghost try_from_gives = { λ n choice. MatchResult choice (λ c. readings_number c ≡ n) (λ r. (r ≡ refused.Readings) × (most_choice < n)) };

    fn try_from(n: u8) -> Result<Readings, Refusal> {
        match n {
            0 => Ok(Readings::Unlisted),
            1 => Ok(Readings::Listed),
            _ => Err(Refusal::Readings),
        }
    }
}

// What a call is asked besides tables and text: its mode, and its choices.
#[derive(Clone, Copy)]
pub struct Asked {
    pub mode: Mode,
    pub capitals: Capitals,
    pub o_ang: OAng,
    pub readings: Readings,
}

impl Asked {
    // The first of them that there is not is refused.
    pub fn of(mode: u8, capitals: u8, o_ang: u8, readings: u8) -> Result<Asked, Refusal>
        ensures verdict { verdict_means result ≡ by_asked mode (choose capitals o_ang readings) }
        ensures ok { IfOk result (λ a. (mode_number a.mode ≡ mode) × (chosen a ≡ choose capitals o_ang readings)) }
    {
        let mode = Mode::try_from(mode)?;
        let capitals = Capitals::try_from(capitals)?;
        let o_ang = OAng::try_from(o_ang)?;
        let readings = Readings::try_from(readings)?;
        Ok(Asked {
            mode,
            capitals,
            o_ang,
            readings,
        })
    }
}

// The tables' bytes, and the language code.
#[derive(Clone, Copy)]
pub struct Tables<'a> {
    pub rules: &'a [u8],
    pub classes: &'a [u8],
    pub vowels: &'a [u8],
    pub decompositions: &'a [u8],
    pub code: &'a [u8],
}

// What is lent to be written: slots and text room for the edges, and the output.
#[derive(Drop)]
pub struct Memory<'m> {
    pub slots: &'m mut [u8],
    pub room: &'m mut [u8],
    pub out: &'m mut [u8],
}

// Another table is accepted, or refused at its first faulty row.
#[tactic(auto, unfolding(table_blocks::specs::Faults::table_means, definition::specs::Refusals::placed))]
fn of_table(table: Table, read: Result<(), TableFault>) -> Result<(), Refusal>
    ensures { verdict_means result ≡ placed (table_number table) (table_means read) }
{
    match read {
        Ok(()) => Ok(()),
        Err(fault) => Err(Refusal::Table {
            table,
            at: fault.at,
        }),
    }
}

// A language code is empty, or three letters a to z.
fn check_code(code: &[u8]) -> Result<(), Refusal>
    ensures { verdict_means result ≡ by_code code.now }
{
    if code.len() == 0 {
        return Ok(());
    }
    if code.len() != CODE_LETTERS {
        return Err(Refusal::Code);
    }
    if table_blocks::all_small(code, 0, CODE_LETTERS) {
        return Ok(());
    }
    Err(Refusal::Code)
}

// What is refused of the tables and the code, in this order. The decomposition table's index is filled by the way.
fn check(tables: &Tables, index: &mut [u32]) -> Result<(), Refusal>
    requires { index.old ≡ replicate form_entries 0 }
    ensures verdict { verdict_means result ≡ by_tables tables.now.rules.now tables.now.classes.now tables.now.vowels.now
        tables.now.decompositions.now tables.now.code.now }
    ensures index { Indexed tables.now.decompositions.now index.new result }
{
    rule_table_check::check_rules(tables.rules)?;
    let classes = table_classes::check_classes(tables.classes);
    of_table(Table::Classes, classes)?;
    let vowels = table_vowels::check_vowels(tables.vowels);
    of_table(Table::Vowels, vowels)?;
    let decompositions = table_decompositions::check_decompositions(tables.decompositions, index);
    of_table(Table::Decompositions, decompositions)?;
    check_code(tables.code)
}

// Is a listing of so many bytes too large for the length before its rows? Mode 0 lists nothing.
fn is_uncounted(mode: u8, needed: usize) -> bool
    ensures { (w : List ℕ) → needed ≡ length w → result ≡ uncounted mode w }
{
    if mode == 0 {
        return false;
    }
    HEAD_BYTES + MOST_LISTED < needed
}

// What the mode shows, or a refusal of a listing that is too large or an output that is too short for it.
fn show(
    dicts: &Dicts,
    line: &[u32],
    places: &mut [u32],
    starts: &[u32],
    built: Built,
    memory: &mut Memory,
) -> Result<Romanized, Refusal>
    requires { Whole dicts.now.rules.now dicts.now.ready.now line.now memory.old.slots.now memory.old.room.now places.old starts.now built
        × (memory.old.out.now ≡ replicate (length memory.old.out.now) 0) }
    ensures written { (i : Inputs) → i.out ≡ length memory.old.out.now → i.mode ≡ built.mode
        → Writes i dicts.now.rules.now dicts.now.ready.now dicts.now.code.now line.now
        memory.old.slots.now memory.old.room.now places.old built (returned (answered result) memory.new.out.now) }
    ensures lent { Lent memory.old memory.new }
{
    let slots = &mut *memory.slots;
    let needed = output::put_shown(
        dicts,
        line,
        slots,
        memory.room,
        places,
        starts,
        built,
        memory.out,
    );
    if is_uncounted(built.mode, needed) {
        lent_bytes::clear(memory.out);
        return Err(Refusal::Listing);
    }
    if memory.out.len() < needed {
        lent_bytes::clear(memory.out);
        return Err(Refusal::Output { needed });
    }
    Ok(Romanized {
        length: needed,
        edges: built.count,
    })
}

// What is shown of the lattice once its first pass has found room: the fallbacks come behind its edges, or the refusal of slots
// or text room that are too short for them.
fn finish<'a>(
    dicts: &Dicts<'a>,
    line: &[u32],
    text: &'a [u8],
    places: &mut [u32],
    starts: &mut [u32],
    filled: Filled,
    memory: &mut Memory,
) -> Result<Romanized, Refusal>
    requires { FinishReady dicts.now line.now text.now memory.old.slots.now memory.old.room.now places.old starts.old filled
        × (memory.old.out.now ≡ replicate (length memory.old.out.now) 0) }
    ensures finished { Finishes dicts.now line.now text.now memory.old.slots.now memory.old.room.now
        places.old filled (length memory.old.out.now) (returned (answered result) memory.new.out.now) }
    ensures lent { Lent memory.old memory.new }
{
    let taken = second_pass::add_rom_fall_back_singles(
        dicts,
        text,
        line,
        memory.slots,
        memory.room,
        places,
        starts,
        filled,
    )?;
    let mode = words::mode_in(dicts.ready) as u8;
    let built = Built {
        mode,
        count: taken.count,
        used: taken.used,
    };
    show(dicts, line, places, starts, built, memory)
}

// What is shown of the lattice of a text that has fewer characters than there are places, or its refusal. What is kept by position
// and by start while it is built begins as zeros.
fn build<const PLACES: usize>(
    tables: &Tables,
    prepared: &[u32],
    text: &[u8],
    memory: &mut Memory,
) -> Result<Romanized, Refusal>
    requires ready { RomanizeReady tables.now.rules.now prepared.now tables.now.classes.now tables.now.vowels.now tables.now.decompositions.now text.now }
    requires zeros { memory.old.out.now ≡ replicate (length memory.old.out.now) 0 }
    requires places { (size_in (line_in prepared.now) < PLACES) × (PLACES ≤ most_characters + 1) }
    ensures romanized { Romanizes tables.now.rules.now prepared.now tables.now.classes.now tables.now.vowels.now tables.now.decompositions.now
        tables.now.code.now text.now (length memory.old.slots.now) (length memory.old.room.now) (length memory.old.out.now)
        (returned (answered result) memory.new.out.now) }
    ensures lent { Lent memory.old memory.new }
{
    let line = words::line_in(prepared);
    let dicts = Dicts {
        rules: tables.rules,
        classes: tables.classes,
        vowels: tables.vowels,
        decompositions: tables.decompositions,
        code: tables.code,
        ready: words::ready_in(prepared),
    };
    let end = words::text_len(line) + 1;
    let mut places = [0u32; PLACES];
    let mut starts = [0u32; PLACES];
    let places = &mut places[..end];
    let starts = &mut starts[..end];
    let taken = decomp_pass::add_romanization(
        &dicts,
        line,
        memory.slots,
        memory.room,
        places,
        starts,
    )?;
    let filled = Filled {
        count: taken.count,
        used: taken.used,
        since: taken.count,
    };
    finish(&dicts, line, text, places, starts, filled, memory)
}

// What the engine asks besides the tables' rows: the ASCII letters, and the index of the rule table with what it has of the
// line's characters.
fn make_ready(tables: &Tables, prepared: &mut [u32])
    requires { (rule_fault tables.now.rules.now ≡ none) × (class_fault tables.now.classes.now ≡ none)
        × ((decompositions : List ℕ) × Blank decompositions prepared.old) }
    ensures { MadeReady tables.now.rules.now tables.now.classes.now prepared.old prepared.new }
{
    table_classes::classify_ascii(tables.classes, &mut prepared[..ASCII]);
    let half = (prepared.len() - words::READY) / 2;
    rule_memo::fill(tables.rules, &mut prepared[words::INDEX..], half);
}

// The text between spaces, and behind it the class of each of its characters.
fn lay_out(classes: &[u8], text: &[u8], line: &mut [u32]) -> Result<usize, Refusal>
    requires { (class_fault classes.now ≡ none) × LineRoom text.now (length line.old) }
    ensures refusal { verdict_means result ≡ text_refusal text.now }
    ensures line { IfOk result (λ n. (n ≡ length (decoded text.now)) × (n ≤ most_characters)
        × (take (2 * (n + line_spaces)) line.new ≡ with_kinds classes.now (decoded text.now))) }
{
    let count = utf8::read_line(text, line)?;
    table_classes::classify(classes, &mut line[..2 * (count + utf8::LINE_SPACES)]);
    Ok(count)
}

// The text's refusal, or the text in what is prepared, with all that the engine asks besides the tables' rows.
fn set_up_text(tables: &Tables, text: &[u8], prepared: &mut [u32]) -> Result<usize, Refusal>
    requires { TextReady tables.now.rules.now tables.now.classes.now text.now prepared.old }
    ensures { TextSet tables.now.rules.now tables.now.classes.now text.now prepared.old prepared.new result }
{
    let n = lay_out(tables.classes, text, &mut prepared[words::READY..])?;
    make_ready(
        tables,
        &mut prepared[..words::READY + 2 * (n + utf8::LINE_SPACES)],
    );
    Ok(n)
}

// What is asked is written into what is prepared, so that no check has to keep it at hand.
fn put_asked(prepared: &mut [u32], asked: Asked)
    requires { all_ready ≤ length prepared.old }
    ensures { prepared.new ≡ asking (mode_number asked.mode) (chosen asked) prepared.old }
{
    prepared[words::CAPITALS] = asked.capitals as u32;
    prepared[words::O_ANG] = asked.o_ang as u32;
    prepared[words::READINGS] = asked.readings as u32;
    prepared[words::MODE] = asked.mode as u32;
}

// What is refused of tables, code and text, or all that is needed to build edges of so many characters. What was asked stands in what
// is prepared.
fn set_up(tables: &Tables, text: &[u8], prepared: &mut [u32]) -> Result<usize, Refusal>
    requires { Fresh text.now prepared.old × (by_asked (mode_in prepared.old) (choices_in prepared.old) ≡ none) }
    ensures { SetsUp (given (mode_in prepared.old) (choices_in prepared.old) tables.now.rules.now tables.now.classes.now
        tables.now.vowels.now tables.now.decompositions.now tables.now.code.now text.now 0 0 0) prepared.new result }
{
    check(tables, &mut prepared[words::FORMS..words::INDEX])?;
    set_up_text(tables, text, prepared)
}

// The whole call over an output of zeros, but for what is asked and for clearing the rooms, in arrays that have room for the text. It is
// not compiled into its caller, where a short text would take the stack of a long one's arrays.
#[inline(never)]
fn respond<const PREPARED: usize, const PLACES: usize>(
    asked: Asked,
    tables: &Tables,
    text: &[u8],
    memory: &mut Memory,
) -> Result<Romanized, Refusal>
    requires prepared { (PREPARED ≤ all_ready + 2 * (most_characters + line_spaces)) × (all_ready ≤ PREPARED) × LineRoom text.now (PREPARED - all_ready) }
    requires places { (PLACES ≤ most_characters + 1) × (length (decoded text.now) ≤ most_characters → length (decoded text.now) < PLACES) }
    requires zeros { memory.old.out.now ≡ replicate (length memory.old.out.now) 0 }
    ensures called { returned (answered result) memory.new.out.now ≡ called (given (mode_number asked.mode) (chosen asked) tables.now.rules.now
        tables.now.classes.now tables.now.vowels.now tables.now.decompositions.now tables.now.code.now text.now (length memory.old.slots.now)
        (length memory.old.room.now) (length memory.old.out.now)) }
    ensures lent { Lent memory.old memory.new }
{
    let mut prepared = [0u32; PREPARED];
    put_asked(&mut prepared, asked);
    let n = set_up(tables, text, &mut prepared)?;
    build::<PLACES>(
        tables,
        &prepared[..words::READY + 2 * (n + utf8::LINE_SPACES)],
        text,
        memory,
    )
}

// Has the text few characters? They are counted only where its bytes don't tell.
#[tactic(auto, using(crate::proofs::Told::few_decoded, definition::specs::Utf8Turns::decoded_few))]
fn is_short(text: &[u8]) -> bool
    ensures { result ≡ true → length (decoded text.now) ≤ few_characters }
{
    if text.len() <= SHORT {
        return true;
    }
    if MOST_CHARACTER_BYTES * SHORT < text.len() {
        return false;
    }
    utf8::characters(text) <= SHORT
}

// The whole call over an output of zeros, but for clearing the rooms, in arrays that the text needs.
fn romanize(
    mode: u8,
    capitals: u8,
    o_ang: u8,
    readings: u8,
    tables: &Tables,
    text: &[u8],
    memory: &mut Memory,
) -> Result<Romanized, Refusal>
    requires { memory.old.out.now ≡ replicate (length memory.old.out.now) 0 }
    ensures called { returned (answered result) memory.new.out.now ≡ called (given mode (choose capitals o_ang readings) tables.now.rules.now
        tables.now.classes.now tables.now.vowels.now tables.now.decompositions.now tables.now.code.now text.now (length memory.old.slots.now)
        (length memory.old.room.now) (length memory.old.out.now)) }
    ensures lent { Lent memory.old memory.new }
{
    let asked = Asked::of(mode, capitals, o_ang, readings)?;
    if is_short(text) {
        return respond::<SHORT_PREPARED, SHORT_PLACES>(asked, tables, text, memory);
    }
    respond::<LONG_PREPARED, LONG_PLACES>(asked, tables, text, memory)
}

// The call. Answer and output are the definition's `called`; slots and text room are zeros afterwards, whatever happened.
pub fn jettyfig_romanize<'a>(
    mode: u8,
    capitals: u8,
    o_ang: u8,
    readings: u8,
    rules: &'a [u8],
    classes: &[u8],
    vowels: &[u8],
    decompositions: &[u8],
    code: &[u8],
    text: &'a [u8],
    slots: &mut [u8],
    room: &mut [u8],
    out: &mut [u8],
) -> Answer
    ensures answer { returned result out.new ≡ called (given mode (choose capitals o_ang readings) rules.now classes.now vowels.now
        decompositions.now code.now text.now (length slots.old) (length room.old) (length out.old)) }
    ensures slots { slots.new ≡ replicate (length slots.old) 0 }
    ensures room { room.new ≡ replicate (length room.old) 0 }
{
    let tables = Tables {
        rules,
        classes,
        vowels,
        decompositions,
        code,
    };
    let mut memory = Memory { slots, room, out };
    lent_bytes::clear(memory.out);
    let called = romanize(mode, capitals, o_ang, readings, &tables, text, &mut memory);
    lent_bytes::clear(memory.slots);
    lent_bytes::clear(memory.room);
    Answer::from(called)
}
