// Cutting a message into frames: NAD, PCI, then data; unused bytes are 255.
ghost use Rattle.std.specs.Prelude.{◌≡◌, [], ◌∷◌, ◌++◌, ◌-◌, ◌≤◌, length};
ghost use Rattle.refusal.specs.Answers.{test, first_failing};
ghost use Rattle.transport.specs.Answers.{count_told, cut_told};
ghost use Rattle.transport.specs.Cutting.{longest, is_length, count_of, cut_of, message_frames};
ghost use Rattle.transport.specs.Cutting.{message_frame, data_bytes};

use crate::reassembly::Assembly;
use refusal::Refusal;

// The number of frames that a message of a length takes, or refusal 9.
pub fn count(length: usize) -> Result<u16, Refusal>
    ensures value { result ≡ count_of length }
    ensures told { count_told result ≡ first_failing (test 9 (is_length length) ∷ []) (message_frames length ∷ []) }
{
    if 1 <= length && length <= Assembly::LONGEST as usize {
        Ok(frames(length))
    } else {
        Err(Refusal::of(Refusal::MESSAGE_LENGTH))
    }
}

// Frame k of a message, counted from 0, if there is such a frame, or refusal 9 for the message's length.
pub fn frame(nad: u8, message: &[u8], k: u16) -> Result<Option<[u8; 8]>, Refusal>
    ensures value { result ≡ cut_of nad message.now k }
    ensures told { cut_told result ≡ first_failing (test 9 (is_length (length message.now)) ∷ []) [] }
{
    if k < count(message.len())? {
        Ok(Some(frame_bytes(nad, message, k)))
    } else {
        Ok(None)
    }
}

// The number of frames of a message of a length up to the longest; (length - 5) / 6 rounded up is length / 6.
fn frames(length: usize) -> u16
    requires { length ≤ longest }
    ensures { result ≡ message_frames length }
{
    if length <= 6 {
        1
    } else {
        (1 + length / 6) as u16
    }
}

// The eight bytes of frame k: a next frame behind the first one, and else the only frame or the first of several.
fn frame_bytes(nad: u8, message: &[u8], k: u16) -> [u8; 8]
    requires { length message.now ≤ longest }
    ensures { result ≡ message_frame nad message.now k }
{
    let n = message.len();
    if 0 < k {
        let counter = k % 16;
        with_data(
            &[nad, (32 + counter) as u8],
            message,
            5 + 6 * (k as usize - 1),
        )
    } else if n <= 6 {
        with_data(&[nad, n as u8], message, 0)
    } else {
        with_data(&[nad, (16 + n / 256) as u8, (n % 256) as u8], message, 0)
    }
}

// A header, and behind it the message's bytes from a place on; unused bytes are 255.
fn with_data(header: &[u8], message: &[u8], place: usize) -> [u8; 8]
    requires { length header.now ≤ 8 }
    ensures { result ≡ header.now ++ data_bytes message.now place (8 - length header.now) }
{
    let mut bytes = [255; 8];
    let h = header.len();
    bytes[..h].copy_from_slice(header);
    let rest = &message[message.len().min(place)..];
    let n = rest.len().min(8 - h);
    bytes[h..h + n].copy_from_slice(&rest[..n]);
    bytes
}
