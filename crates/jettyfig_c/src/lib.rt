// What C calls: the call of the library `jettyfig` under its name, with its promises. include/jettyfig.h declares it.
#![tactic(auto)]

ghost use Rattle.std.specs.Prelude.{◌≡◌, length, replicate};
ghost use Rattle.definition.specs.Call.{called};
ghost use Rattle.jettyfig.specs.Verdicts.{choose, given, returned};

use jettyfig::Answer;

// The call. Answer and output are the definition's `called`; slots and text room are zeros afterwards, whatever happened.
#[unsafe(no_mangle)]
pub extern "C" fn jettyfig_romanize<'a>(
    mode: u8,
    capitals: u8,
    o_ang: u8,
    readings: u8,
    rules: &'a [u8],
    classes: &[u8],
    vowels: &[u8],
    decompositions: &[u8],
    code: &[u8],
    text: &'a [u8],
    slots: &mut [u8],
    room: &mut [u8],
    out: &mut [u8],
) -> Answer
    ensures answer { returned result out.new ≡ called (given mode (choose capitals o_ang readings) rules.now classes.now vowels.now
        decompositions.now code.now text.now (length slots.old) (length room.old) (length out.old)) }
    ensures slots { slots.new ≡ replicate (length slots.old) 0 }
    ensures room { room.new ≡ replicate (length room.old) 0 }
{
    jettyfig::jettyfig_romanize(
        mode,
        capitals,
        o_ang,
        readings,
        rules,
        classes,
        vowels,
        decompositions,
        code,
        text,
        slots,
        room,
        out,
    )
}
