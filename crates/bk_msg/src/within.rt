ghost use Rattle.std.specs.Prelude.{◌≡◌, ◌↔◌, IsTrue};
ghost use Rattle.bk_msg.specs.Within.{IsWithin, is_way, is_within};

use crate::message::Message;
use crate::row::Row;
use bk_base::Config;

/// Whether it is a cache of the configuration and one of its ways.
fn is_way(config: Config, cache: u8, way: u8) -> bool
    ensures { result ≡ is_way config cache way }
{
    cache < config.caches && way < config.ways
}

impl Message {
    /// Whether each cache that the message names is one of the configuration, and each way one of its ways.
    pub fn is_within(&self, config: Config) -> bool
        ensures value { result ≡ is_within config self.now }
        ensures within { IsTrue result ↔ IsWithin config self.now }
    {
        match self.row() {
            Row::Rd { from, way, .. } => is_way(config, from, way),
            Row::Wr { from, way, .. } => is_way(config, from, way),
            Row::UcRd { from, .. } => from < config.caches,
            Row::UcWr { from, .. } => from < config.caches,
            Row::Evict { from, way, .. } => is_way(config, from, way),
            Row::Inv { to, .. } => to < config.caches,
            Row::StWb { to, .. } => to < config.caches,
            Row::StTr {
                to,
                peer,
                peer_way,
                ..
            } => to < config.caches && is_way(config, peer, peer_way),
            Row::Blk { to, way, .. } => is_way(config, to, way),
            Row::StWake { to, way, .. } => is_way(config, to, way),
            Row::UcBlk { to, .. } => to < config.caches,
            Row::UcDone { to, .. } => to < config.caches,
            Row::Done { to, .. } => to < config.caches,
            Row::Fill { from, to, way, .. } => from < config.caches && is_way(config, to, way),
            Row::InvAck { from, .. } => from < config.caches,
            Row::CohAck { from, .. } => from < config.caches,
            Row::Wb { from, .. } => from < config.caches,
            Row::NullWb { from, .. } => from < config.caches,
            Row::Read { .. } => true,
            Row::Write { .. } => true,
            Row::WriteWord { .. } => true,
            Row::Block { .. } => true,
        }
    }
}
