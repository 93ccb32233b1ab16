//! Messages in frames: what is sent with its check, and what an awaited answer says.
ghost use Rattle.std.specs.Prelude.{◌≡◌, ◌≤◌, length};
ghost use Rattle.ep_base.specs.Air.Frame.{sealed};
ghost use Rattle.ep_base.specs.Air.Heard.{asks, framed, awaited};
ghost use Rattle.rf_frame.specs.Meaning.{heard_of, awaited_of};

use crate::{Ask, Heard, RoundEnd, Sent, open_frame, refill, seal};
use ep_base::{FrameBuf, MESSAGE, Wave};

/// A message of at most 254 bytes as a frame of this wave.
fn frame_of(wave: Wave, message: &[u8]) -> FrameBuf
    requires { length message.now ≤ MESSAGE }
    ensures { result.items ≡ sealed wave message.now }
{
    let mut frame = FrameBuf::new();
    put_message(wave, message, &mut frame);
    frame
}

/// Puts a message of at most 254 bytes, as a frame of this wave, in place of all that a frame has.
pub fn put_message(wave: Wave, message: &[u8], frame: &mut FrameBuf)
    requires { length message.now ≤ MESSAGE }
    ensures { frame.new.items ≡ sealed wave message.now }
{
    refill(frame, message);
    seal(wave, frame);
}

/// Asks with a message of at most 254 bytes in a frame of this wave, without a reset and with the waiting number 0.
pub fn ask_message(wave: Wave, message: &[u8]) -> Ask
    requires { length message.now ≤ MESSAGE }
    ensures { result ≡ asks wave message.now }
{
    Ask {
        reset: false,
        wave,
        frame: frame_of(wave, message),
        wait: 0,
    }
}

/// Writes the same ask in place of another.
pub fn put_ask(wave: Wave, message: &[u8], ask: &mut Ask)
    requires { length message.now ≤ MESSAGE }
    ensures { ask.new ≡ asks wave message.now }
{
    ask.reset = false;
    ask.wave = wave;
    ask.wait = 0;
    put_message(wave, message, &mut ask.frame);
}

/// Sends a message of at most 254 bytes in a frame of this wave.
pub fn sent_message(wave: Wave, message: &[u8]) -> Sent
    requires { length message.now ≤ MESSAGE }
    ensures { result ≡ framed wave message.now }
{
    Sent {
        wave,
        frame: frame_of(wave, message),
    }
}

/// Writes the same frame in place of another.
pub fn put_sent(wave: Wave, message: &[u8], sent: &mut Sent)
    requires { length message.now ≤ MESSAGE }
    ensures { sent.new ≡ framed wave message.now }
{
    sent.wave = wave;
    put_message(wave, message, &mut sent.frame);
}

/// What an awaited answer of this wave says, without its check, or how it ends the round: as `Collision` where answers
/// overlap, and as `Broken` where it isn't a good frame of the wave.
pub fn answer_in(wave: Wave, heard: &Heard) -> Result<&[u8], RoundEnd>
    ensures { awaited_of result ≡ awaited wave (heard_of heard.now) }
{
    match heard {
        Heard::Silence => Err(RoundEnd::Broken),
        Heard::Noise => Err(RoundEnd::Broken),
        Heard::Overlap => Err(RoundEnd::Collision),
        Heard::Frame { wave: sent, bytes } => {
            if *sent != wave {
                return Err(RoundEnd::Broken);
            }
            match open_frame(wave, bytes) {
                Some(message) => Ok(message),
                None => Err(RoundEnd::Broken),
            }
        }
    }
}
