ghost use Rattle.std.specs.Prelude.{◌≡◌, ◌<◌, None, is_some, IfSome, if◌then◌else◌};
ghost use Rattle.bk_dir.specs.Directories.{contents_of};
ghost use Rattle.bk_engine.specs.Heads.{IsSound};
ghost use Rattle.bk_engine.specs.Summed.{IsSummed};
ghost use Rattle.bk_engine.specs.Reads.{looks};
ghost use Rattle.bk_engine.specs.Changes.{wipes_owner, unshared};

use crate::parts::{Core, ROW_READ};
use crate::reads::summary_for;
use crate::sends::is_invalidated;
use bk_base::{Config, MOST_CACHES};
use bk_dir::{Directory, Summary};
use bk_isa::Form;
use bk_isa::operand::{FIELD_OTHERS, FIELD_OWN, FIELD_OWNER, FIELD_VICTIM};

/// Whether an instruction looks at what the directory says of the request's block.
fn looks(form: Form) -> bool
    ensures { result ≡ looks form }
{
    match form {
        Form::Bk { a, .. } => matches!(a, FIELD_OWN | FIELD_OWNER | FIELD_OTHERS | FIELD_VICTIM),
        Form::Wds { .. } => true,
        Form::Inv { .. } => true,
        Form::Stwb { .. } => true,
        Form::Tr { .. } => true,
        _ => false,
    }
}

/// What the directory says of the held request's block, where a request is held.
fn summed_up(config: Config, core: &Core, directory: &Directory) -> Option<Summary>
    requires config { directory.now.config ≡ config }
    requires sound { IsSound config core.now }
    ensures { IsSummed config (contents_of directory.now) core.now.held result }
{
    match &core.held {
        None => None,
        Some(held) => Some(summary_for(config, directory, held, &None)),
    }
}

/// Sums the directory up for an instruction that looks at it, where that isn't kept, and the instruction may look.
pub(crate) fn sum_up(
    config: Config,
    core: &Core,
    directory: &Directory,
    summed: &mut Option<Summary>,
    form: Form,
)
    requires config { directory.now.config ≡ config }
    requires sound { IsSound config core.now }
    requires summed { IsSummed config (contents_of directory.now) core.now.held summed.old }
    ensures { IsSummed config (contents_of directory.now) core.now.held summed.new }
{
    if summed.is_none() && ROW_READ < core.summ && looks(form) {
        *summed = summed_up(config, core, directory);
    }
}

/// Whether the owner is among the caches that are sent an invalidation.
fn wipes_owner(with_owner: bool, summary: &Summary) -> bool
    requires { IfSome summary.now.owner (λ at. at.0 < MOST_CACHES) }
    ensures { result ≡ wipes_owner with_owner summary.now summary.now.owner }
{
    match summary.owner {
        None => false,
        Some((cache, _)) => is_invalidated(with_owner, summary, cache),
    }
}

/// What is kept of the directory once a block is invalidated: no other cache has an entry `S` of it then. Where the owner's entries
/// are gone too, who answers for the block next isn't known.
pub(crate) fn unshared(with_owner: bool, summary: Summary) -> Option<Summary>
    requires { IfSome summary.owner (λ at. at.0 < MOST_CACHES) }
    ensures { result ≡ unshared with_owner summary }
{
    if wipes_owner(with_owner, &summary) {
        None
    } else {
        Some(Summary {
            others: 0,
            ..summary
        })
    }
}

/// Drops what is kept of the directory, where no request is held.
pub(crate) fn drop_summary(core: &Core, summed: &mut Option<Summary>)
    ensures { summed.new ≡ (if is_some core.now.held then summed.old else None) }
{
    if core.held.is_none() {
        *summed = None;
    }
}
