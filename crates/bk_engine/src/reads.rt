ghost use Rattle.std.specs.Prelude.{◌≡◌, ◌<◌, ◌^◌, IfSome};
ghost use Rattle.bk_isa.specs.Operands.{Operands};
ghost use Rattle.bk_msg.specs.Within.{IsWay};
ghost use Rattle.bk_dir.specs.Directories.{contents_of};
ghost use Rattle.bk_engine.specs.Engine.{engine_of};
ghost use Rattle.bk_engine.specs.Heads.{IsSound};
ghost use Rattle.bk_engine.specs.Summed.{Tells, IsSummed};
ghost use Rattle.bk_engine.specs.Reads.{query_of, summary_for, is_heavy, has_own, has_owner, has_victim, flag, number_of, gp_value, kind_value, own_number, owner_number, summary_value, held_value, field_value, compares, target};

use crate::heads::{head_value, is_placed, kind_number};
use crate::parts::{Core, Head, Held};
use bk_base::{Coh, Config, group_of, tag_at};
use bk_dir::{Directory, Query, Summary};
use bk_isa::Form;
use bk_isa::operand::{
    FIELD_ACKS, FIELD_F0, FIELD_GP, FIELD_HEAD, FIELD_KIND, FIELD_OTHERS, FIELD_OWN, FIELD_OWNER,
};

/// What a request asks the directory about.
pub(crate) fn query_of(config: Config, held: &Held) -> Query
    ensures value { result ≡ query_of config held.now }
    ensures cache { result.cache ≡ held.now.source }
    ensures set { result.set < config.sets }
    ensures way { result.way ≡ held.now.way }
{
    Query {
        cache: held.source,
        set: group_of(config, held.addr),
        tag: tag_at(config, held.addr),
        way: held.way,
        placed: is_placed(held.kind),
    }
}

/// What the directory says of the held request's block, as it is at the moment: what is kept of it, or else it is summed up.
pub(crate) fn summary_for(
    config: Config,
    directory: &Directory,
    held: &Held,
    summed: &Option<Summary>,
) -> Summary
    requires config { directory.now.config ≡ config }
    requires way { IsWay config held.now.source held.now.way }
    requires summed { Tells config (contents_of directory.now) held.now summed.now }
    ensures value { result ≡ summary_for config (contents_of directory.now) held.now }
    ensures own_way { result.own_way < config.ways }
    ensures owner { IfSome result.owner (λ at. (at.0 < config.caches) × (at.1 < config.ways)) }
    ensures others { result.others < 2 ^ config.caches }
{
    match summed {
        None => directory.summary(query_of(config, held)),
        Some(summary) => *summary,
    }
}

/// Whether a block in this state has to be flushed before it leaves.
fn is_heavy(state: Coh) -> bool
    ensures { result ≡ is_heavy state }
{
    matches!(state, Coh::E | Coh::M | Coh::O)
}

/// Whether the requester has an entry of the block.
pub(crate) fn has_own(
    config: Config,
    core: &Core,
    directory: &Directory,
    summed: &Option<Summary>,
) -> bool
    requires config { directory.now.config ≡ config }
    requires sound { IsSound config core.now }
    requires summed { IsSummed config (contents_of directory.now) core.now.held summed.now }
    ensures { result ≡ has_own config (contents_of directory.now) core.now.held }
{
    match &core.held {
        None => false,
        Some(held) => summary_for(config, directory, held, summed).own.readable(),
    }
}

/// Whether another cache answers for the block.
pub(crate) fn has_owner(
    config: Config,
    core: &Core,
    directory: &Directory,
    summed: &Option<Summary>,
) -> bool
    requires config { directory.now.config ≡ config }
    requires sound { IsSound config core.now }
    requires summed { IsSummed config (contents_of directory.now) core.now.held summed.now }
    ensures { result ≡ has_owner config (contents_of directory.now) core.now.held }
{
    match &core.held {
        None => false,
        Some(held) => summary_for(config, directory, held, summed).owner.is_some(),
    }
}

/// Whether another block stands where the request's is to be placed.
pub(crate) fn has_victim(
    config: Config,
    core: &Core,
    directory: &Directory,
    summed: &Option<Summary>,
) -> bool
    requires config { directory.now.config ≡ config }
    requires sound { IsSound config core.now }
    requires summed { IsSummed config (contents_of directory.now) core.now.held summed.now }
    ensures { result ≡ has_victim config (contents_of directory.now) core.now.held }
{
    match &core.held {
        None => false,
        Some(held) => summary_for(config, directory, held, summed)
            .victim
            .readable(),
    }
}

fn flag(core: &Core, a: u8) -> bool
    ensures { result ≡ flag core.now a }
{
    match core.flags.get(a as usize) {
        None => false,
        Some(flag) => *flag,
    }
}

fn number_of(b: bool) -> u8
    ensures value { result ≡ number_of b }
    ensures small { result < 2 }
{
    if b { 1 } else { 0 }
}

/// Field `gp`: whether the head's group is pending.
fn gp_value(config: Config, directory: &Directory, head: &Option<Head>) -> u8
    requires { directory.now.config ≡ config }
    ensures value { result ≡ gp_value config (contents_of directory.now) head.now }
    ensures small { result < 8 }
{
    match head {
        None => 0,
        Some(head) => {
            let group = group_of(config, head.message.row().address());
            number_of(directory.pending(group))
        }
    }
}

/// Field `kind`: the request's kind.
fn kind_value(held: &Option<Held>) -> u8
    ensures value { result ≡ kind_value held.now }
    ensures small { result < 8 }
{
    match held {
        None => 0,
        Some(held) => kind_number(held.kind),
    }
}

fn own_number(state: Coh) -> u8
    ensures value { result ≡ own_number state }
    ensures small { result < 8 }
{
    match state {
        Coh::I => 0,
        Coh::S => 1,
        Coh::E => 2,
        Coh::F => 3,
        Coh::M => 4,
        Coh::O => 5,
    }
}

fn owner_number(state: Coh) -> u8
    ensures value { result ≡ owner_number state }
    ensures small { result < 8 }
{
    match state {
        Coh::I => 0,
        Coh::S => 0,
        Coh::E => 1,
        Coh::F => 2,
        Coh::M => 3,
        Coh::O => 4,
    }
}

/// Fields `own`, `owner`, `others` and `victim`.
fn summary_value(summary: &Summary, field: u8) -> u8
    ensures value { result ≡ summary_value summary.now field }
    ensures small { result < 8 }
{
    match field {
        FIELD_OWN => own_number(summary.own),
        FIELD_OWNER => owner_number(summary.owner_state),
        FIELD_OTHERS => number_of(0 < summary.others),
        _ => number_of(is_heavy(summary.victim)),
    }
}

fn held_value(
    config: Config,
    core: &Core,
    directory: &Directory,
    summed: &Option<Summary>,
    field: u8,
) -> u8
    requires config { directory.now.config ≡ config }
    requires sound { IsSound config core.now }
    requires summed { IsSummed config (contents_of directory.now) core.now.held summed.now }
    ensures value { result ≡ held_value config (contents_of directory.now) core.now.held field }
    ensures small { result < 8 }
{
    match &core.held {
        None => 0,
        Some(held) => summary_value(&summary_for(config, directory, held, summed), field),
    }
}

/// The value of a field that `bk` may ask for.
pub(crate) fn field_value(
    config: Config,
    core: &Core,
    directory: &Directory,
    summed: &Option<Summary>,
    field: u8,
) -> u8
    requires config { directory.now.config ≡ config }
    requires sound { IsSound config core.now }
    requires summed { IsSummed config (contents_of directory.now) core.now.held summed.now }
    ensures value { result ≡ field_value config (engine_of core.now directory.now) field }
    ensures small { result < 8 }
{
    match field {
        FIELD_HEAD => head_value(&core.head),
        FIELD_GP => gp_value(config, directory, &core.head),
        FIELD_KIND => kind_value(&core.held),
        FIELD_ACKS => number_of(0 < core.acks),
        FIELD_F0.. => number_of(flag(core, field - FIELD_F0)),
        _ => held_value(config, core, directory, summed, field),
    }
}

/// Whether a branch on registers is taken.
pub(crate) fn compares(core: &Core, form: Form) -> bool
    requires { Operands form }
    ensures { result ≡ compares core.now form }
{
    let registers = &core.registers;
    match form {
        Form::Bi { .. } => true,
        Form::Beq { a, b, .. } => registers[a as usize] == registers[b as usize],
        Form::Bne { a, b, .. } => registers[a as usize] != registers[b as usize],
        Form::Blt { a, b, .. } => registers[a as usize] < registers[b as usize],
        Form::Bge { a, b, .. } => registers[a as usize] >= registers[b as usize],
        _ => false,
    }
}

/// Where a branch goes, a place below 256.
pub(crate) fn target(form: Form) -> u32
    ensures { result ≡ target form }
{
    match form {
        Form::Bi { imm } => imm,
        Form::Beq { imm, .. } => imm,
        Form::Bne { imm, .. } => imm,
        Form::Blt { imm, .. } => imm,
        Form::Bge { imm, .. } => imm,
        Form::Bk { imm, .. } => imm,
        _ => 0,
    }
}
