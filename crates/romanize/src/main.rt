// romanize RULES CLASSES VOWELS DECOMPOSITIONS CODE MODE [capitals] [o_ang] [readings]: romanizes standard input by the tables of
// four files.
//
// CODE is a language code, or - for none. MODE is 0 for the string, 1 for the path, 2 for the path and its alternatives, 3 for
// all edges; these are written a line for each edge: start, end, annotation, core length and text. The words `capitals`, `o_ang`
// and `readings`, in any order, turn these choices on. One line end behind the text is no part of it. A refusal is one line on
// standard error, and nothing is written.
//
// A function that writes answers the error of a write that failed, as the writer gave it, and no other but a failed read where it
// reads. What was written before the failure stays, and nothing is written after it.
#![tactic(auto)]

ghost use Rattle.std.specs.Prelude.{◌≡◌, ◌+◌, ◌<◌, ◌≤◌, length, IfOk, IfSome};
ghost use Rattle.definition.specs.Limits.{most_rows};
ghost use Rattle.romanize.specs.Arguments.{mode_of, mode_asked, with_choice, with_word, code_of, without_line_end};

use jettyfig::Answer;
use rule_row_faults::{Fault, RuleFault};
use std::env::FillError;
use std::fs::File;
use std::io;
use std::io::{Cursor, Read, Write};
use std::rt::{Env, Files};

// What an annotation is called, with blanks behind it, eight letters in all, so that they go out in one write: its number is its place.
const NAMES: [&str; 16] = [
    "none    ", "rom     ", "core    ", "tail    ", "expanded", "deleted ", "single  ", "Mn      ",
    "Cf      ", "Co      ", "Zs      ", "orig    ", "alt     ", "alt2    ", "alt3    ", "decomp  ",
];

// What the words behind the mode choose.
#[derive(Clone, Copy)]
pub struct Chosen {
    pub capitals: bool,
    pub o_ang: bool,
    pub readings: bool,
}

// What the call is asked for a mode that is not one digit: it refuses this number, as any above 3.
const NO_MODE: u8 = 255;

// What this program holds, on its stack alone: as many slots as any text can need, which are 17 of 12 bytes for each of 4,096
// characters and of the 18 that a decomposition may have; but not as much text room, which would be 42 million bytes, nor the
// output of every text.
const SLOTS: usize = 839256;

const TEXT_ROOM: usize = 1783980;

const OUTPUT: usize = 1793029;

// The rooms are returned by functions, so that `main` knows their lengths alone.
fn rules_room() -> [u8; 1048577] {
    [0u8; 1048577]
}

fn classes_room() -> [u8; 65536] {
    [0u8; 65536]
}

fn vowels_room() -> [u8; 4096] {
    [0u8; 4096]
}

fn decompositions_room() -> [u8; 524288] {
    [0u8; 524288]
}

fn text_room() -> [u8; 65536] {
    [0u8; 65536]
}

fn slots_room() -> [u8; SLOTS] {
    [0u8; SLOTS]
}

fn edges_room() -> [u8; TEXT_ROOM] {
    [0u8; TEXT_ROOM]
}

fn out_room() -> [u8; OUTPUT] {
    [0u8; OUTPUT]
}

// No argument is longer, and no path.
const ARGUMENT: usize = 4096;

fn argument_room() -> [u8; ARGUMENT] {
    [0u8; ARGUMENT]
}

fn usage<W: Write>(err: &mut W) -> io::Result<()> {
    err.write_all(
        b"usage: romanize RULES CLASSES VOWELS DECOMPOSITIONS CODE MODE [capitals] [o_ang] [readings] < TEXT\n",
    )?;
    err.write_all(
        b"four table files; a language code, or - for none; 0 string, 1 path, 2 alternatives, 3 all edges\n",
    )?;
    err.write_all(
        b"capitals: before lower case a character in upper case keeps its first letter so, Zh and not ZH\n",
    )?;
    err.write_all(
        b"o_ang: Thai O ang asks no further back than its word, so a word reads in its line as alone\n",
    )?;
    err.write_all(
        b"readings: the alternatives have what a rule reads at the end of a syllable, as alt2\n",
    )
}

// All that a reader has; none where `buf` is full afterwards, too short for it, and a line says so.
//
// An error is that of a read or, where there is a line to say, of a write, and no other. It leaves in `buf` no bytes that count,
// and may have cut the line.
fn read_all<R: Read, W: Write>(
    reader: &mut R,
    err: &mut W,
    name: &[u8],
    buf: &mut [u8],
) -> io::Result<Option<usize>>
    ensures { IfOk result (λ read. IfSome read (λ n. n ≤ length buf.new)) }
{
    let n = lent_input::read_full(reader, buf)?;
    if n == buf.len() {
        err.write_all(name)?;
        err.write_all(b": longer than this program takes\n")?;
        return Ok(None);
    }
    Ok(Some(n))
}

// The argument `i`, at the start of `buf`; none where it is missing or longer.
fn read_argument<R: Env>(rt: &R, i: usize, buf: &mut [u8]) -> usize
    ensures { result ≤ length buf.new }
{
    rt.arg(i, buf).unwrap_or(0)
}

// What an error says before its number.
fn reason(said: &[u8]) -> &[u8] {
    match str::from_utf8(said) {
        Ok(text) => match text.split_once(" (os error ") {
            Some((reason, _)) => reason.as_bytes(),
            None => said,
        },
        Err(_) => said,
    }
}

// Why a file was not opened, as the system says it. An error is written as a reason of at most 256 bytes and, behind it, a number,
// so 320 bytes are enough for it.
fn say_failure<W: Write>(err: &mut W, name: &[u8], error: io::Error) -> io::Result<()> {
    let mut said = Cursor::new([0u8; 320]);
    write!(said, "{error}")?;
    let n = said.position() as usize;
    let bytes = said.into_inner();
    err.write_all(name)?;
    err.write_all(b": ")?;
    err.write_all(reason(lent_bytes::part_or_none(&bytes, 0, n)))?;
    err.write_all(b"\n")
}

// All of the file that an argument names; none where there is no such file, or too much of it, and a line says so.
//
// An error is that of a read or, where there is a line to say, of a write, and no other: a file that can't be opened is none. It
// leaves in `buf` no bytes that count, may have cut the line, and the file is closed.
fn read_table<R: Env + Files, W: Write>(
    rt: &R,
    err: &mut W,
    i: usize,
    buf: &mut [u8],
) -> io::Result<Option<usize>>
    ensures { IfOk result (λ read. IfSome read (λ n. n ≤ length buf.new)) }
{
    let mut room = argument_room();
    let n = read_argument(rt, i, &mut room);
    let name = &room[..n];
    let Ok(path) = str::from_utf8(name) else {
        err.write_all(name)?;
        err.write_all(b": not UTF-8\n")?;
        return Ok(None);
    };
    match File::open(rt, path) {
        Ok(mut file) => read_all(&mut file, err, name, buf),
        Err(e) => {
            say_failure(err, name, e)?;
            Ok(None)
        }
    }
}

// The mode, if it is one digit.
#[tactic(auto, unfolding(crate::specs::Arguments::mode_of, base::specs::Pick::pick))]
fn mode_of(arg: &[u8]) -> Option<u8>
    ensures { result ≡ mode_of arg.now }
{
    if arg.len() != 1 {
        return None;
    }
    match arg[0] {
        digit @ b'0'..=b'9' => Some(digit - b'0'),
        _ => None,
    }
}

// The mode that the call is asked: the digit's value, and for anything else a number that the call refuses.
#[tactic(auto, unfolding(crate::specs::Arguments::mode_asked))]
fn mode_asked(arg: &[u8]) -> u8
    ensures { result ≡ mode_asked arg.now }
{
    mode_of(arg).unwrap_or(NO_MODE)
}

// A word more, which names a choice that no word before it has named; else none.
#[tactic(auto, using(lent_bytes::specs::Library::same_texts), unfolding(crate::specs::Arguments::with_choice, base::specs::Pick::pick))]
fn with_choice(word: &[u8], chosen: Chosen) -> Option<Chosen>
    ensures { result ≡ with_choice word.now chosen }
{
    if word == b"capitals".as_slice() {
        return (!chosen.capitals).then_some(Chosen {
            capitals: true,
            ..chosen
        });
    }
    if word == b"o_ang".as_slice() {
        return (!chosen.o_ang).then_some(Chosen {
            o_ang: true,
            ..chosen
        });
    }
    if word == b"readings".as_slice() {
        return (!chosen.readings).then_some(Chosen {
            readings: true,
            ..chosen
        });
    }
    None
}

// A word more behind those before it. Where one of these was wrong (`None`), the answer is `None`.
#[tactic(auto, unfolding(crate::specs::Arguments::with_word))]
fn with_word(word: &[u8], chosen: Option<Chosen>) -> Option<Chosen>
    ensures { result ≡ with_word word.now chosen }
{
    match chosen {
        Some(chosen) => with_choice(word, chosen),
        None => None,
    }
}

// The argument `i` behind those before it; one that is too long for a choice is a word that names none.
fn with_argument<R: Env>(rt: &R, i: usize, chosen: Option<Chosen>) -> Option<Chosen> {
    let mut word = [0u8; 16];
    let n = read_argument(rt, i, &mut word);
    with_word(&word[..n], chosen)
}

// Is there an argument `i`?
fn has_argument<R: Env>(rt: &R, i: usize) -> bool {
    !matches!(rt.arg(i, &mut []), Err(FillError::NotPresent))
}

// The choices by the arguments behind the mode; none where there is no mode, or a word that is not one of them.
fn choices<R: Env>(rt: &R) -> Option<Chosen> {
    if !has_argument(rt, 6) {
        return None;
    }
    let mut chosen = Some(Chosen {
        capitals: false,
        o_ang: false,
        readings: false,
    });
    for i in 7..usize::MAX {
        if !has_argument(rt, i) {
            break;
        }
        chosen = with_argument(rt, i, chosen);
    }
    chosen
}

// The language code: none for a dash.
#[tactic(auto, using(lent_bytes::specs::Library::same_texts), unfolding(crate::specs::Arguments::code_of, base::specs::Pick::pick))]
fn code_of<'a>(arg: &'a [u8]) -> &'a [u8]
    ensures { result.now ≡ code_of arg.now }
{
    if arg == b"-".as_slice() {
        return &arg[..0];
    }
    arg
}

// The text without the line end behind it.
fn without_line_end<'a>(text: &'a [u8]) -> &'a [u8]
    ensures { result.now ≡ without_line_end text.now }
{
    let n = text.len();
    if n == 0 {
        return text;
    }
    if text[n - 1] == b'\n' {
        return &text[..n - 1];
    }
    text
}

// One row of a listing, `len` bytes behind its two bytes of length: start, end, annotation, core length, text.
fn print_edge<W: Write>(out: &mut W, rows: &[u8], at: usize, len: usize) -> io::Result<()>
    requires { (at < 16777216) × (len < 65536) }
{
    let start = base::two(rows, at, 2);
    let end = base::two(rows, at, 4);
    let name = NAMES
        .get(base::at(rows, at, 6) as usize)
        .copied()
        .unwrap_or("");
    let core = base::at(rows, at, 7);
    write!(out, "{start} {end} {name} {core} ")?;
    if 6 < len {
        out.write_all(lent_bytes::part_or_none(rows, at + 8, len - 6))?;
    }
    out.write_all(b"\n")
}

// The rows of a listing, behind its five bytes of header.
fn print_edges<W: Write>(out: &mut W, listing: &[u8]) -> io::Result<()>
    requires { length listing.now < 16777216 }
{
    let mut at: usize = 5;
    // a `while`: each turn moves by the row's own size
    while at < listing.len() {
        let len = base::two(listing, at, 0) as usize;
        print_edge(out, listing, at, len)?;
        at += 2 + len;
    }
    Ok(())
}

// What a call has written. The output room is far shorter than the bound: it says so to the prover.
fn print_output<W: Write>(out: &mut W, mode: u8, written: &[u8]) -> io::Result<()> {
    if mode == 0 {
        out.write_all(written)?;
        return out.write_all(b"\n");
    }
    if written.len() < 16777216 {
        print_edges(out, written)?;
    }
    Ok(())
}

// What a refusal of anything but the rule table means, and its place.
fn say_meaning<W: Write>(err: &mut W, number: u64, place: u64) -> io::Result<()> {
    match number {
        1 => write!(err, "the mode is none of 0 to 3; place {place}"),
        3 => write!(
            err,
            "the class table is faulty; offset of the first faulty row, 0 for the header: {place}"
        ),
        4 => write!(
            err,
            "the vowel table is faulty; offset of the first faulty row, 0 for the header: {place}"
        ),
        5 => write!(
            err,
            "the language code is neither empty nor three letters a to z; place {place}"
        ),
        6 => write!(
            err,
            "the text is not UTF-8; offset of the first bad sequence: {place}"
        ),
        7 => write!(
            err,
            "the text is longer than 4,096 characters; so many are taken: {place}"
        ),
        8 => write!(
            err,
            "a Tibetan, Braille or Hangul character; its position in characters: {place}"
        ),
        9 => write!(
            err,
            "an edge finds no slot (this program has {SLOTS} bytes); its start: {place}"
        ),
        10 => write!(
            err,
            "an edge finds too little text room (this program has {TEXT_ROOM} bytes); its start: {place}"
        ),
        11 => write!(
            err,
            "the output is too short (this program has {OUTPUT} bytes); bytes needed: {place}"
        ),
        12 => write!(
            err,
            "the choice of capitals is neither 0 nor 1; place {place}"
        ),
        13 => write!(
            err,
            "the decomposition table is faulty; offset of the first faulty row, 0 for the header: {place}"
        ),
        14 => write!(
            err,
            "a decomposition's text is longer than 606 bytes; its position in characters: {place}"
        ),
        15 => write!(err, "the choice of O ang is neither 0 nor 1; place {place}"),
        19 => write!(
            err,
            "the listing's rows are more than 4,294,967,295 bytes; place {place}"
        ),
        _ => write!(
            err,
            "the choice of readings is neither 0 nor 1; place {place}"
        ),
    }
}

// A fault of the rule table: its kind and place, and the row in which it lies, behind `rows` right ones. No row stands before
// `HEAD_BYTES`: a fault there is the header's.
fn say_fault<W: Write>(err: &mut W, rows: usize, at: usize, fault: RuleFault) -> io::Result<()>
    requires { rows ≤ most_rows }
{
    let place = fault.at;
    if place < table_blocks::HEAD_BYTES {
        return err.write_all(b"the rule table's header is faulty, or its length is not the file's");
    }
    let words = rule_fault_words::fault_words(fault.kind);
    let row = rows + 1;
    write!(
        err,
        "the rule table has {words} at byte {place}, in row {row}, which begins at byte {at}"
    )
}

// What is wrong with the rule table. The call has said its number and place; the walk finds the row too.
fn say_rules<W: Write>(err: &mut W, rules: &[u8]) -> io::Result<()> {
    let walked = rule_reader::walk_rules(rules);
    match walked.read {
        Ok(()) => Ok(()),
        Err(fault) => say_fault(err, walked.rows, walked.at, fault),
    }
}

// The line of a refusal: number, meaning and place. From that of a length on it is the rule table's.
fn print_refusal<W: Write>(err: &mut W, answer: Answer, rules: &[u8]) -> io::Result<()> {
    let number = answer.number;
    write!(err, "romanize: refusal {number}: ")?;
    if number < Fault::Length.number() {
        say_meaning(err, number, answer.place)?;
    } else {
        say_rules(err, rules)?;
    }
    err.write_all(b"\n")
}

// One call, and what it answers, printed.
fn romanize<'a, O: Write, W: Write>(
    output: &mut O,
    err: &mut W,
    mode: u8,
    chosen: Chosen,
    rules: &'a [u8],
    classes: &[u8],
    vowels: &[u8],
    decompositions: &[u8],
    code: &[u8],
    text: &'a [u8],
) -> io::Result<()> {
    let mut slots = slots_room();
    let mut room = edges_room();
    let mut out = out_room();
    let answer = jettyfig::jettyfig_romanize(
        mode,
        chosen.capitals as u8,
        chosen.o_ang as u8,
        chosen.readings as u8,
        rules,
        classes,
        vowels,
        decompositions,
        code,
        text,
        &mut slots,
        &mut room,
        &mut out,
    );
    if answer.number != 0 {
        return print_refusal(err, answer, rules);
    }
    if answer.length < 16777216 {
        let written = lent_bytes::part_or_none(&out, 0, answer.length as usize);
        print_output(output, mode, written)?;
    }
    Ok(())
}

// The tables are read; code, mode and text are not yet.
fn with_tables(
    rt: &HostRuntime,
    chosen: Chosen,
    rules: &[u8],
    classes: &[u8],
    vowels: &[u8],
    decompositions: &[u8],
) -> io::Result<()> {
    let mut err = rt.stderr();
    let mut code = argument_room();
    let Ok(c) = rt.arg(5, &mut code) else {
        return err.write_all(b"CODE: File name too long\n");
    };
    let mut mode = [0u8; 2];
    let m = read_argument(rt, 6, &mut mode);
    let mut text = text_room();
    let Some(t) = read_all(&mut rt.reader(), &mut err, b"standard input", &mut text)? else {
        return Ok(());
    };
    romanize(
        &mut rt.stdout(),
        &mut err,
        mode_asked(&mode[..m]),
        chosen,
        rules,
        classes,
        vowels,
        decompositions,
        code_of(&code[..c]),
        without_line_end(&text[..t]),
    )
}

fn main(rt: HostRuntime) -> io::Result<()> {
    let mut err = rt.stderr();
    let Some(chosen) = choices(&rt) else {
        return usage(&mut err);
    };
    let mut rules = rules_room();
    let Some(r) = read_table(&rt, &mut err, 1, &mut rules)? else {
        return Ok(());
    };
    let mut classes = classes_room();
    let Some(c) = read_table(&rt, &mut err, 2, &mut classes)? else {
        return Ok(());
    };
    let mut vowels = vowels_room();
    let Some(v) = read_table(&rt, &mut err, 3, &mut vowels)? else {
        return Ok(());
    };
    let mut decompositions = decompositions_room();
    let Some(d) = read_table(&rt, &mut err, 4, &mut decompositions)? else {
        return Ok(());
    };
    with_tables(
        &rt,
        chosen,
        &rules[..r],
        &classes[..c],
        &vowels[..v],
        &decompositions[..d],
    )
}
