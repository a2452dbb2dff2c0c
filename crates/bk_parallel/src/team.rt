ghost use Rattle.std.specs.Prelude.{◌≡◌, ℕ, [], IfOk, OnOk};
ghost use Rattle.bk_system.specs.State.{opening};
ghost use Rattle.bk_threads.specs.Journals.{OfDifferentAgents, entries_of};
ghost use Rattle.bk_parallel.specs.Teams.{IsNew, IsTeam, AreApart, state_at, inlets_at, outlets_at, entries_at};

use bk_base::Config;
use bk_rounds::Agent;
use bk_system::Hardware;
use bk_threads::Journal;
use std::alloc::{AllocError, Global};
use std::mem;

/// The agent of a number, which has done nothing yet.
fn agent(alloc: Global, config: Config, number: u8) -> Result<Agent, AllocError>
    ensures { IfOk result (IsNew config number) }
{
    Ok(Agent {
        number,
        hardware: Hardware::make(alloc, config)?,
        inlets: Vec::new(alloc),
        outlets: Vec::new(alloc),
        turns: 0,
        clock: 0,
        entries: Vec::new(alloc),
    })
}

/// The agents of a system at its opening.
pub(crate) fn make_team(alloc: Global, config: Config) -> Result<Vec<Agent>, AllocError>
    ensures team { IfOk result (λ agents. IsTeam config agents.items) }
    ensures apart { IfOk result (λ agents. AreApart agents.items) }
    ensures opening { IfOk result (λ agents. (n : ℕ) → state_at config agents.items n ≡ opening config) }
    ensures entries { IfOk result (λ agents. (n : ℕ) → entries_at agents.items n ≡ []) }
{
    let mut agents = Vec::new(alloc);
    for number in 0..config.caches + 2 {
        agents.push(agent(alloc, config, number)?)?;
    }
    Ok(agents)
}

/// The journals of agents, which have empty ones then.
pub(crate) fn journals_of(
    alloc: Global,
    config: Config,
    agents: &mut [Agent],
) -> Result<Vec<Journal>, AllocError>
    requires { IsTeam config agents.old }
    ensures different { IfOk result (λ journals. OfDifferentAgents journals.items) }
    ensures entries { IfOk result (λ journals. (n : ℕ) → entries_of journals.items n ≡ entries_at agents.old n) }
    ensures empty { OnOk result ((n : ℕ) → entries_at agents.new n ≡ []) }
    ensures team { OnOk result (IsTeam config agents.new) }
    ensures states { OnOk result ((n : ℕ) → state_at config agents.new n ≡ state_at config agents.old n) }
    ensures inlets { OnOk result ((n : ℕ) → inlets_at agents.new n ≡ inlets_at agents.old n) }
    ensures outlets { OnOk result ((n : ℕ) → outlets_at agents.new n ≡ outlets_at agents.old n) }
{
    let mut journals = Vec::new(alloc);
    for place in 0..agents.len() {
        let agent = &mut agents[place];
        let entries = mem::replace(&mut agent.entries, Vec::new(alloc));
        journals.push(Journal {
            agent: agent.number,
            entries,
        })?;
    }
    Ok(journals)
}
