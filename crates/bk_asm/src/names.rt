ghost use Rattle.std.specs.Prelude.{◌≡◌, ◌<◌, ◌≤◌, ◌==◌, ◌^◌, map, length, IfSome, true, bit_or};
ghost use Rattle.std.specs.List.{position_or_len};
ghost use Rattle.std.specs.Option.{option_map};
ghost use Rattle.bk_asm.specs.Names.{value_names, class_names, names_of, named, cut_at, joined, all_below};

/// What a word may be the name of.
#[derive(Clone, Copy)]
pub(crate) enum Names {
    /// Registers.
    Register,
    /// Flags.
    Flag,
    /// The six states.
    State,
    /// The states but I.
    Valid,
    /// The states that a write-back leaves: I and S.
    Clean,
    /// The states in which a block is sent to the requester.
    Granted,
    /// The states that a transfer leaves its owner.
    Left,
    /// The states in which a transfer reaches the requester.
    Received,
    /// Whose entry: the requester's own, or the owner's.
    Whose,
    /// The same, or the victim's.
    Holder,
    /// That the pending bit is written too.
    Pending,
    /// That the owner is sent an invalidation too.
    Owner,
    /// The know fields that a branch tests.
    Tested,
    /// All know fields.
    Field,
}

/// The names of the values of a know field.
pub(crate) fn value_names(field: u8) -> &'static [(&'static str, u8)]
    ensures value { map (λ name. (name.0.now, name.1)) result.now ≡ value_names field }
    ensures count { length result.now ≡ length (value_names field) }
    ensures few { length result.now ≤ 7 }
    ensures below { all_below (length result.now) (value_names field) ≡ true }
{
    match field {
        1 => &[("Idle", 0), ("Blocked", 1), ("Held", 2), ("Closing", 3)],
        2 => &[
            ("None", 0),
            ("Request", 1),
            ("InvAck", 2),
            ("CohAck", 3),
            ("Wb", 4),
            ("NullWb", 5),
            ("Block", 6),
        ],
        3 => &[("free", 0), ("pending", 1)],
        4 => &[("Rd", 0), ("Wr", 1), ("UcRd", 2), ("UcWr", 3), ("Evict", 4)],
        5 => &[("no", 0), ("row", 1), ("sum", 2)],
        6 => &[("I", 0), ("S", 1), ("E", 2), ("F", 3), ("M", 4), ("O", 5)],
        7 => &[("none", 0), ("E", 1), ("F", 2), ("M", 3), ("O", 4)],
        8 => &[("no", 0), ("yes", 1)],
        9 => &[("light", 0), ("heavy", 1)],
        10 => &[("zero", 0), ("some", 1)],
        11 => &[("idle", 0), ("asked", 1), ("dirty", 2)],
        12 => &[("idle", 0), ("asked", 1), ("got", 2), ("written", 3)],
        13 => &[
            ("paid", 0),
            ("S", 1),
            ("E", 2),
            ("F", 3),
            ("M", 4),
            ("O", 5),
        ],
        14 => &[("paid", 0), ("I", 1), ("S", 2), ("F", 3), ("O", 4)],
        _ => &[("0", 0), ("1", 1)],
    }
}

/// The names of the classes of messages that an engine waits for.
pub(crate) fn class_names() -> &'static [(&'static str, u8)]
    ensures value { map (λ name. (name.0.now, name.1)) result.now ≡ class_names }
    ensures count { length result.now ≡ 3 }
    ensures below { all_below (length result.now) class_names ≡ true }
{
    &[("resp", 0), ("mem", 1), ("req", 2)]
}

/// The names of a sort, and the number that each stands for.
pub(crate) fn names_of(names: Names) -> &'static [(&'static str, u8)]
    ensures { map (λ name. (name.0.now, name.1)) result.now ≡ names_of names }
{
    match names {
        Names::Register => &[
            ("r0", 0),
            ("r1", 1),
            ("r2", 2),
            ("r3", 3),
            ("r4", 4),
            ("r5", 5),
            ("r6", 6),
            ("r7", 7),
        ],
        Names::Flag => &[("f0", 0), ("f1", 1), ("f2", 2), ("f3", 3)],
        Names::State => &[("I", 0), ("S", 1), ("E", 2), ("F", 3), ("M", 6), ("O", 7)],
        Names::Valid => &[("S", 1), ("E", 2), ("F", 3), ("M", 6), ("O", 7)],
        Names::Clean => &[("I", 0), ("S", 1)],
        Names::Granted => &[("S", 1), ("E", 2), ("F", 3), ("M", 6)],
        Names::Left => &[("I", 0), ("S", 1), ("F", 3), ("O", 7)],
        Names::Received => &[("S", 1), ("F", 3), ("M", 6), ("O", 7)],
        Names::Whose => &[("own", 0), ("owner", 1)],
        Names::Holder => &[("own", 0), ("owner", 1), ("victim", 2)],
        Names::Pending => &[("wp", 1)],
        Names::Owner => &[("o", 1)],
        Names::Tested => &[
            ("head", 2),
            ("gp", 3),
            ("kind", 4),
            ("own", 6),
            ("owner", 7),
            ("others", 8),
            ("victim", 9),
            ("acks", 10),
            ("f0", 15),
            ("f1", 16),
            ("f2", 17),
            ("f3", 18),
        ],
        Names::Field => &[
            ("stage", 1),
            ("head", 2),
            ("gp", 3),
            ("kind", 4),
            ("summ", 5),
            ("own", 6),
            ("owner", 7),
            ("others", 8),
            ("victim", 9),
            ("acks", 10),
            ("wb", 11),
            ("mem", 12),
            ("dreq", 13),
            ("down", 14),
            ("f0", 15),
            ("f1", 16),
            ("f2", 17),
            ("f3", 18),
        ],
    }
}

/// The number that a word stands for.
pub(crate) fn named(names: &[(&str, u8)], word: &[u8]) -> Option<u8>
    ensures { result ≡ named (map (λ name. (name.0.now, name.1)) names.now) word.now }
{
    for (name, value) in names {
        if name.as_bytes() == word {
            return Some(*value);
        }
    }
    None
}

/// The number that a word stands for, where each name stands for a number below the count of names.
fn small_named(names: &[(&str, u8)], word: &[u8]) -> Option<u8>
    requires { all_below (length names.now) (map (λ name. (name.0.now, name.1)) names.now) ≡ true }
    ensures value { result ≡ named (map (λ name. (name.0.now, name.1)) names.now) word.now }
    ensures small { IfSome result (λ v. v < length names.now) }
{
    named(names, word)
}

/// The set with one more value.
fn with_value(set: u8, value: u8) -> u8
    requires { value < 8 }
    ensures { result ≡ bit_or set (2 ^ value) }
{
    set | 1 << value
}

/// The index of the first such byte, or the length where there is none.
fn first_index(byte: u8, bytes: &[u8]) -> usize
    ensures value { result ≡ position_or_len (λ b. b == byte) bytes.now }
    ensures within { result ≤ length bytes.now }
{
    bytes.iter().position(|b| *b == byte).unwrap_or(bytes.len())
}

/// What stands before the first separator, and what stands behind it where there is one.
pub(crate) fn cut(separator: u8, bytes: &[u8]) -> (&[u8], Option<&[u8]>)
    ensures value { (result.0.now, option_map (λ w. w.now) result.1) ≡ cut_at separator bytes.now }
    ensures shorter { IfSome result.1 (λ w. length w.now < length bytes.now) }
{
    let end = first_index(separator, bytes);
    if end == bytes.len() {
        (bytes, None)
    } else {
        (&bytes[..end], Some(&bytes[end + 1..]))
    }
}

/// The set of the numbers that the names in a word stand for, with a separator between them.
pub(crate) fn joined(names: &[(&str, u8)], separator: u8, word: &[u8]) -> Option<u8>
    requires few { length names.now ≤ 7 }
    requires below { all_below (length names.now) (map (λ name. (name.0.now, name.1)) names.now) ≡ true }
    ensures { result ≡ joined (map (λ name. (name.0.now, name.1)) names.now) separator word.now }
{
    let mut set = 0;
    let mut left = Some(word);
    while let Some(rest) = left {
        let (name, behind) = cut(separator, rest);
        let value = small_named(names, name)?;
        set = with_value(set, value);
        left = behind;
    }
    Some(set)
}
