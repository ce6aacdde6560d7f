// A stream's bytes in lent bytes.
#![tactic(auto)]

ghost use Rattle.std.specs.Prelude.{◌≢◌, take, IfOk, IfErr};
ghost use Rattle.std.specs.Io.{ReadsAtMost};
ghost use Rattle.std.specs.Io.KnownBytes.{Consumes};
ghost use Rattle.std.specs.IoError.{error_kind};

use std::io;
use std::io::{ErrorKind, Read};

// Reads until the bytes are full or the stream ends, and returns how many stand at their start: those that the stream had next, in
// its order. A read that a signal has interrupted is tried again, and after 2^64 - 1 reads what has come by then is all.
//
// The one error is that of a read that failed otherwise, as the reader gave it. What it leaves in `bytes` is not said, nor how much
// the reader has given, so neither is to be read on after it.
pub fn read_full<R: Read>(reader: &mut R, bytes: &mut [u8]) -> io::Result<usize>
    ensures bound { ReadsAtMost result bytes.new }
    ensures given { IfOk result (λ n. Consumes (R.remaining reader.old) (R.remaining reader.new) (take n bytes.new)) }
    ensures retried { IfErr result (λ e. error_kind e ≢ ErrorKind.Interrupted) }
{
    let mut done = 0;
    for _ in 0..u64::MAX {
        if done == bytes.len() {
            break;
        }
        match reader.read(&mut bytes[done..]) {
            Ok(0) => break,
            Ok(n) => done += n,
            Err(e) if e.kind() == ErrorKind::Interrupted => {}
            Err(e) => return Err(e),
        }
    }
    Ok(done)
}
