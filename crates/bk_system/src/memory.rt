ghost use Rattle.std.specs.Prelude.{◌≡◌, OnOk, OnErr, IfOk, unwrap_or, replicate, length};
ghost use Rattle.std.specs.Ordering.{nat_cmp};
ghost use Rattle.std.specs.BTreeMap.{get};
ghost use Rattle.bk_base.specs.Places.{block_start};
ghost use Rattle.bk_base.specs.Tables.{put};
ghost use Rattle.bk_msg.specs.declared.row.Row.TheVariants.{Block};
ghost use Rattle.bk_msg.specs.declared.row.TheConstants.{ENGINE, MEMORY};
ghost use Rattle.bk_system.specs.Memory.{words_from, with_block, memory_after, answer_to};

use bk_base::{Addr, block_of, word_of};
use bk_msg::{Message, Row};
use std::alloc::{AllocError, Global};
use std::collections::BTreeMap;

/// The memory's words. A word that was never written is 0.
#[derive(Drop)]
pub struct MainMemory {
    /// The blocks that were written, by their numbers.
    blocks: BTreeMap<u64, [u64; 8]>,
}

impl MainMemory {
    ghost use Rattle.bk_system.specs.Channels.{word_at};

    /// A memory whose words are all 0.
    pub fn make(alloc: Global) -> MainMemory
        ensures { word_at result ≡ λ a. 0 }
    {
        MainMemory {
            blocks: BTreeMap::new(alloc),
        }
    }

    /// The words of a block.
    fn block(&self, number: u64) -> [u64; 8]
        ensures value { result ≡ unwrap_or (get nat_cmp self.now.blocks number) (replicate 8 0) }
        ensures eight { length result ≡ 8 }
    {
        self.blocks.get(&number).copied().unwrap_or([0; 8])
    }

    /// The answer to a read of an address's block.
    fn read(&self, addr: Addr) -> Message
        ensures { result ≡ Block MEMORY ENGINE (block_start addr) (words_from (word_at self.now) (block_start addr)) }
    {
        Message::block(addr, self.block(block_of(addr)))
    }

    /// Writes the words of an address's block.
    fn write(&mut self, addr: Addr, words: [u64; 8]) -> Result<(), AllocError>
        ensures ok { OnOk result (word_at self.new ≡ with_block (word_at self.old) addr words) }
        ensures err { OnErr result (word_at self.new ≡ word_at self.old) }
    {
        match self.blocks.insert(block_of(addr), words) {
            Ok(_) => Ok(()),
            Err(_) => Err(AllocError),
        }
    }

    /// Writes the word at an address.
    fn write_word(&mut self, addr: Addr, word: u64) -> Result<(), AllocError>
        ensures ok { OnOk result (word_at self.new ≡ put (word_at self.old) addr word) }
        ensures err { OnErr result (word_at self.new ≡ word_at self.old) }
    {
        // An address is a multiple of 8, so no other address has its place in its block.
        let _aligned = addr.value();
        let number = block_of(addr);
        let mut words = self.block(number);
        words[word_of(addr) as usize] = word;
        match self.blocks.insert(number, words) {
            Ok(_) => Ok(()),
            Err(_) => Err(AllocError),
        }
    }

    /// What the memory does with a message, and what it answers: `Write` sets the eight words of a block,
    /// `WriteWord` one word, and `Read` is answered with the words of a block. Any other message changes
    /// nothing and has no answer. Fails where memory is short; then no word has changed.
    pub fn apply(&mut self, message: &Message) -> Result<Option<Message>, AllocError>
        ensures ok { IfOk result (λ answer. answer ≡ answer_to (word_at self.old) message.now) }
        ensures state { OnOk result (word_at self.new ≡ memory_after (word_at self.old) message.now) }
        ensures err { OnErr result (word_at self.new ≡ word_at self.old) }
    {
        match message.row() {
            Row::Read { addr, .. } => Ok(Some(self.read(addr))),
            Row::Write { addr, words, .. } => match self.write(addr, words) {
                Ok(()) => Ok(None),
                Err(e) => Err(e),
            },
            Row::WriteWord { addr, word, .. } => match self.write_word(addr, word) {
                Ok(()) => Ok(None),
                Err(e) => Err(e),
            },
            _ => Ok(None),
        }
    }
}
