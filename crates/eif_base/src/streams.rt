//! What a stream of the system gives.

ghost use Rattle.std.specs.Prelude.{◌≡◌, Err, OnErr, IfOk, IfErr};
ghost use Rattle.std.specs.IoError.{error_kind};
ghost use Rattle.eif_base.specs.Reads.{ReadsInto, fail_of, left_in};

use crate::texts::{ReadEnd, ReadFail};
use std::io::{self, Read};

/// Appends the bytes that the stream has left, of which there may be `most`.
fn read_stream<S: Read + Drop>(stream: S, most: u64, into: &mut Vec<u8>) -> io::Result<ReadEnd>
    ensures ok { IfOk result (ReadsInto (S.remaining stream) most into.old.items into.new.items) }
    ensures err { OnErr result (into.new.items ≡ into.old.items) }
{
    let before = into.len();
    match stream.take(most.saturating_add(1)).read_to_end(into) {
        Ok(count) if count as u64 <= most => Ok(ReadEnd::Whole),
        Ok(_) => {
            into.truncate(before);
            Ok(ReadEnd::TooLong)
        }
        Err(error) => {
            into.truncate(before);
            Err(error)
        }
    }
}

/// The same of a stream that was to be opened: where it could not be, the system's error says why.
pub(crate) fn read_opened<S: Read + Drop>(
    opened: io::Result<S>,
    most: u64,
    into: &mut Vec<u8>,
) -> Result<ReadEnd, ReadFail>
    ensures ok { IfOk result (ReadsInto (left_in S.remaining opened) most into.old.items into.new.items) }
    ensures err { OnErr result (into.new.items ≡ into.old.items) }
    ensures unopened { IfErr opened (λ e. result ≡ Err (fail_of (error_kind e))) }
{
    Ok(read_stream(opened?, most, into)?)
}
