// The characters of a decomposition row as a text of their own: as a line with their classes, and as bytes.
#![tactic(auto)]

ghost use Rattle.std.specs.Prelude.{◌++◌, ◌≡◌, ◌+◌, ◌*◌, ◌<◌, ◌≤◌, length, take, drop};
ghost use Rattle.definition.specs.Limits.{most_into};
ghost use Rattle.definition.specs.Utf8.{encode, encoded};
ghost use Rattle.definition.specs.DecompositionRows.{decomposition_count, decomposition_into};
ghost use Rattle.utf8.specs.Puts.{puts};
ghost use Rattle.utf8.specs.Lines.{spaced};
ghost use Rattle.lent_bytes.specs.Puts.{put_at};
ghost use Rattle.table_classes.specs.Told.{Fine, kinds_of};
ghost use Rattle.table_decompositions.specs.Told.{Placed};

// The characters that a row holds.
fn put_characters(table: &[u8], row: usize, chars: &mut [u32])
    requires { length chars.old ≡ decomposition_count (drop row table.now) }
    ensures { chars.new ≡ puts 0 (decomposition_into (drop row table.now)) chars.old }
{
    for (i, c) in chars.iter_mut().enumerate() {
        *c = table_decompositions::into_at(table, row, i);
    }
}

// A row's characters between spaces, one before and two behind, and then the class of each of these.
pub fn lay_out(classes: &[u8], table: &[u8], row: usize, line: &mut [u32])
    requires { Fine classes.now × (length line.old ≡ 2 * (decomposition_count (drop row table.now) + 3)) }
    ensures { line.new ≡ spaced (decomposition_into (drop row table.now))
        ++ kinds_of classes.now (spaced (decomposition_into (drop row table.now))) }
{
    let n = table_decompositions::count(table, row);
    put_characters(table, row, &mut line[1..1 + n]);
    line[0] = 0x20;
    line[n + 1] = 0x20;
    line[n + 2] = 0x20;
    table_classes::classify(classes, line);
}

// The bytes of a character, put at a place: where they end.
fn put_character(c: u32, bytes: &mut [u8], at: usize) -> usize
    requires { (c < 0x110000) × (at + 4 ≤ length bytes.old) }
    ensures { (bytes.new ≡ put_at at (encode c) bytes.old) × (result ≡ at + length (encode c)) × (result ≤ at + 4) }
{
    let own = utf8::encode(c);
    lent_bytes::put_at(bytes, at, &own.bytes[..own.len]);
    at + own.len
}

// The bytes of a row's characters, from the front on: how many they are.
pub fn put_bytes(table: &[u8], row: usize, bytes: &mut [u8]) -> usize
    requires { Placed table.now row × (most_into * 4 ≤ length bytes.old) }
    ensures { (take result bytes.new ≡ encoded (decomposition_into (drop row table.now))) × (result ≤ length bytes.new)
        × (length bytes.new ≡ length bytes.old) }
{
    let n = table_decompositions::count(table, row);
    let mut at: usize = 0;
    for i in 0..n {
        at = put_character(table_decompositions::into_at(table, row, i), bytes, at);
    }
    at
}
