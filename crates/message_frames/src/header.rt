//! Headers of messages.

ghost use Rattle.std.specs.Prelude.{◌≡◌, length, map, All, None};
ghost use Rattle.httparse.specs.Spans.{IsHeaderWithin, header_bytes};
ghost use Rattle.message_frames.specs.Headers.{IsHeaderRead, length_of};

use crate::number::number;
use httparse::Status;
use httparse::spans::{EMPTY_HEADER_SPAN, HeaderSpan, parse_headers};

/// The most bytes of a header.
pub const MAX_HEADER: usize = 4_096;

/// The most fields of a header: each has three bytes at least.
const MAX_FIELDS: usize = 1_365;

/// What a buffer begins with.
#[derive(Clone, Copy, Debug, PartialEq, Eq, Drop)]
pub enum HeaderRead {
    /// A front of a header.
    Unfinished,
    /// No header with a length, whatever follows.
    Broken,
    /// A header of `len` bytes, behind which are `body` bytes of a message.
    Whole { len: usize, body: u64 },
}

/// Returns the length that fields tell, the last one if there are several. `None` if there is none, or one is no number.
fn length_in(buffer: &[u8], fields: &[HeaderSpan]) -> Option<u64>
    requires { All (IsHeaderWithin (length buffer.now)) fields.now }
    ensures { result ≡ length_of None (map (header_bytes buffer.now) fields.now) }
{
    let mut length = None;
    for field in fields {
        let name = field.name.of(buffer);
        if name.eq_ignore_ascii_case(b"content-length") {
            length = Some(number(field.value.of(buffer))?);
        }
    }
    length
}

/// Returns what `buffer` begins with.
///
/// Names of fields may be in any case, fields other than `Content-Length` are ignored, and of several of these the last
/// one counts. A line ends in `\n` or `\r\n`. A header has at most [`MAX_HEADER`] bytes.
pub fn header_in(buffer: &[u8]) -> HeaderRead
    ensures { IsHeaderRead buffer.now result }
{
    let mut fields = [EMPTY_HEADER_SPAN; MAX_FIELDS];
    match parse_headers(buffer, &mut fields) {
        Ok(Status::Partial) if buffer.len() <= MAX_HEADER => HeaderRead::Unfinished,
        Ok(Status::Complete((len, count))) if len <= MAX_HEADER => {
            match length_in(buffer, &fields[..count]) {
                Some(body) => HeaderRead::Whole { len, body },
                None => HeaderRead::Broken,
            }
        }
        _ => HeaderRead::Broken,
    }
}
