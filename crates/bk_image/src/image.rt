ghost use Rattle.std.specs.Prelude.{◌≡◌, ◌<◌, ◌≤◌, ◌↔◌, length, slice_index_or, IsTrue, true, Some, None, IfSome, IsSome, IfOk, IfErr};
ghost use Rattle.bk_know.specs.Sets.{idle_base};
ghost use Rattle.bk_image.specs.Images.{are_lines, known, IsFormat, AreParts};

use bk_isa::Instr;
use bk_know::Know;
use std::marker::Model;

/// How many instructions an image has at most.
pub const INSTRUCTION_LIMIT: u32 = 256;

/// The first version of the format, which has no limit of its own.
pub const FIRST_VERSION: u8 = 1;
/// The second version of the format, which has a limit.
pub const SECOND_VERSION: u8 = 2;
/// The limit of an image of the first version.
pub const FIRST_LIMIT: u8 = 8;
/// The greatest limit that an image of the second version may have.
pub const GREATEST_LIMIT: u8 = 16;

/// The microcode of an engine: 1 to 256 instructions, and know lines; the version of its format, 1
/// or 2; and its limit, the most caches that a replay of it has, which is 8 in version 1 and 1 to 16
/// in version 2. A know line is a place and what is known of the engine when it comes there; the
/// places ascend strictly and are below the count of instructions. Contracts see the version, the
/// limit and the two lists: of the instructions their forms, of a know line its place and its sets.
#[derive(Debug, Drop)]
pub struct Image {
    version: u8,
    limit: u8,
    instrs: Vec<Instr>,
    knows: Vec<(u32, Know)>,
}

impl Model for Image {
    ghost use Rattle.bk_image.specs.Images.{Parts, AreParts};

    ghost Value = { Parts };

    ghost view = { λ i. record { version = i.version; limit = i.limit; instrs = i.instrs.items; knows = i.knows.items } };

    ghost invariant = { λ i.
        AreParts (record { version = i.version; limit = i.limit; instrs = i.instrs.items; knows = i.knows.items }) };
}

/// Whether there is such a format: version 1 with the limit 8, or version 2 with a limit from 1 to 16.
fn is_format(version: u8, limit: u8) -> bool
    ensures { IsTrue result ↔ IsFormat version limit }
{
    if version == FIRST_VERSION {
        return limit == FIRST_LIMIT;
    }
    version == SECOND_VERSION && limit >= 1 && limit <= GREATEST_LIMIT
}

/// Whether the places of the know lines ascend strictly and are below the count of instructions.
fn are_lines(count: u32, knows: &[(u32, Know)]) -> bool
    ensures { result ≡ are_lines count 0 knows.now }
{
    let mut least = 0;
    for (place, _know) in knows {
        if *place < least || *place >= count {
            return false;
        }
        least = *place + 1;
    }
    true
}

impl Image {
    /// The image of a version, a limit and the two lists, or none where they are no image: the
    /// version is neither 1 nor 2, the limit isn't 1 to 16, or the version is 1 and the limit isn't
    /// 8; there are no instructions, or more than 256; or the places of the know lines do not ascend
    /// strictly below their count.
    pub fn make(
        version: u8,
        limit: u8,
        instrs: Vec<Instr>,
        knows: Vec<(u32, Know)>,
    ) -> Option<Image>
        ensures value { IfSome result (λ i. i
            ≡ record { version = version; limit = limit; instrs = instrs.items; knows = knows.items }) }
        ensures some { IsSome result
            ↔ AreParts (record { version = version; limit = limit; instrs = instrs.items; knows = knows.items }) }
    {
        let count = instrs.len();
        if !is_format(version, limit)
            || count == 0
            || count > INSTRUCTION_LIMIT as usize
            || !are_lines(count as u32, &knows)
        {
            return None;
        }
        Some(Image {
            version,
            limit,
            instrs,
            knows,
        })
    }

    /// The image of these parts, which are one.
    pub(crate) fn of(version: u8, limit: u8, instrs: Vec<Instr>, knows: Vec<(u32, Know)>) -> Image
        requires { AreParts (record { version = version; limit = limit; instrs = instrs.items; knows = knows.items }) }
        ensures { result ≡ record { version = version; limit = limit; instrs = instrs.items; knows = knows.items } }
    {
        Image {
            version,
            limit,
            instrs,
            knows,
        }
    }

    /// The version of the format, 1 or 2.
    pub fn version(&self) -> u8
        ensures value { result ≡ self.now.version }
        ensures format { IsFormat result self.now.limit }
    {
        self.version
    }

    /// The limit, the most caches that a replay of the image has: 8 in version 1, 1 to 16 in
    /// version 2.
    pub fn limit(&self) -> u8
        ensures value { result ≡ self.now.limit }
        ensures format { IsFormat self.now.version result }
    {
        self.limit
    }

    /// The instructions in the order of their places.
    pub fn instrs(&self) -> &[Instr]
        ensures value { result.now ≡ self.now.instrs }
        ensures some { 1 ≤ length result.now }
        ensures few { length result.now ≤ 256 }
    {
        self.instrs.as_slice()
    }

    /// The know lines in the order of their places, each with its place.
    pub fn knows(&self) -> &[(u32, Know)]
        ensures value { result.now ≡ self.now.knows }
        ensures lines { are_lines (length self.now.instrs) 0 result.now ≡ true }
        ensures few { length result.now ≤ 256 }
    {
        self.knows.as_slice()
    }

    /// What the know line at a place says, or none where there is no know line.
    pub fn know_at(&self, place: u32) -> Option<Know>
        ensures { result ≡ known self.now.knows place }
    {
        match self.search(place) {
            Ok(index) => Some(self.knows[index].1),
            Err(_) => None,
        }
    }

    /// Which know line is that of a place, or where one would go.
    fn search(&self, place: u32) -> Result<usize, usize>
        ensures found { IfOk result (λ index. (index < length self.now.knows)
            × (known self.now.knows place ≡ Some (slice_index_or self.now.knows index (0, idle_base)).1)) }
        ensures absent { IfErr result (λ _. known self.now.knows place ≡ None) }
    {
        self.knows.binary_search_by_key(&place, |&(at, _)| at)
    }
}
