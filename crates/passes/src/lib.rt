// What both passes of building the lattice (romanize.rs, lattice/mod.rs) share.
#![tactic(auto)]

ghost use Rattle.std.specs.Prelude.{◌≡◌};
ghost use Rattle.passes.specs.Endings.{last_letter};

// Does an ASCII text end in a letter or mark?
pub fn ends_in_letter(ready: &[u32], text: &[u8]) -> bool
    ensures { result ≡ last_letter ready.now text.now }
{
    if text.len() == 0 {
        return false;
    }
    words::number_at(ready, base::byte(text, text.len() - 1) as usize) == 1
}
