ghost use Rattle.std.specs.Prelude.{◌≡◌, IfSome};
ghost use Rattle.bk_msg.specs.Within.{IsWithin};
ghost use Rattle.bk_rounds.specs.Reading.{message_in};

use bk_base::Config;
use bk_msg::{Message, Packet, decode};

/// The message whose spelling a packet's bytes are. None where they spell no message, or more than one, or where the message names a cache
/// or a way that the configuration doesn't have.
pub fn read(config: Config, packet: &Packet) -> Option<Message>
    ensures message { result ≡ message_in config packet.now.bytes.items }
    ensures within { IfSome result (λ m. IsWithin config m) }
{
    match decode(packet.bytes.as_slice()) {
        Err(_) => None,
        Ok((message, size)) => {
            if size == packet.bytes.len() && message.is_within(config) {
                Some(message)
            } else {
                None
            }
        }
    }
}
