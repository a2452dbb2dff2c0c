//! What the operands of some instructions stand for, where they are numbers.

/// `wds` and `stwb`: the requester's own entry.
pub const WHOSE_OWN: u8 = 0;
/// `wds` and `stwb`: the owner's entry.
pub const WHOSE_OWNER: u8 = 1;
/// `stwb`: the victim, which stands in the requester's way.
pub const WHOSE_VICTIM: u8 = 2;

/// `wfq`: responses. The classes that it names are added.
pub const CLASS_RESPONSES: u8 = 1;
/// `wfq`: messages of memory.
pub const CLASS_MEMORY: u8 = 2;
/// `wfq`: requests.
pub const CLASS_REQUESTS: u8 = 4;
/// `wfq`: responses and requests.
pub const CLASS_RESPONSES_REQUESTS: u8 = CLASS_RESPONSES | CLASS_REQUESTS;

/// `popq` without `wp`: the pending bits stay.
pub const PLAIN: u8 = 0;
/// `popq` with `wp`: it marks the block's way group as pending, or no longer so.
pub const WITH_MARK: u8 = 1;

/// `inv` with `o`: to the owner too.
pub const WITH_OWNER: u8 = 1;

/// `bk`: it tests the head.
pub const FIELD_HEAD: u8 = 2;
/// `bk`: whether the head's way group is pending.
pub const FIELD_GP: u8 = 3;
/// `bk`: the kind of the held request.
pub const FIELD_KIND: u8 = 4;
/// `bk`: the state that the requester has the block in.
pub const FIELD_OWN: u8 = 6;
/// `bk`: the state that the owner has it in.
pub const FIELD_OWNER: u8 = 7;
/// `bk`: whether others have it in `S`.
pub const FIELD_OTHERS: u8 = 8;
/// `bk`: whether the victim has to be flushed.
pub const FIELD_VICTIM: u8 = 9;
/// `bk`: whether acknowledgements are to come.
pub const FIELD_ACKS: u8 = 10;
/// `bk`: flag 0.
pub const FIELD_F0: u8 = 15;
/// `bk`: flag 1.
pub const FIELD_F1: u8 = 16;
/// `bk`: flag 2.
pub const FIELD_F2: u8 = 17;
/// `bk`: flag 3.
pub const FIELD_F3: u8 = 18;
