ghost use Rattle.std.specs.Prelude.{◌≡◌, ◌≤◌, IsTrue, false, []};
ghost use Rattle.record_defs.specs.Records.{is_setup, largest_journal};
ghost use Rattle.machine_defs.specs.Setups.{setup_or_none};

use crate::job::Job;
use key_schedule::Master;
use record_codec::Setup;
use std::alloc::Global;
use std::marker::Model;
use vault_table::Table;

/// The jobs of a vault over the table of its records. It says which action comes next and is told what came
/// of it.
#[derive(Drop)]
pub struct Core {
    pub(crate) alloc: Global,
    pub(crate) table: Table,
    pub(crate) setup: Setup,
    pub(crate) master: Master,
    pub(crate) end: u64,
    pub(crate) jobs: Vec<Job>,
    pub(crate) next_job: u32,
    pub(crate) append: Option<u32>,
    pub(crate) barred: bool,
}

impl Model for Core {
    ghost use Rattle.vault_core.specs.View.{CoreView};

    ghost Value = { CoreView };

    ghost use Rattle.vault_core.specs.Parts.{view_of, IsCore};

    ghost view = { view_of };

    ghost invariant = { IsCore };
}

impl Core {
    /// No job yet, over a table and a journal's text of `end` bytes, the closed gate included; jobs are
    /// numbered from `first` on. Conditions: the table's setup is within its limits, and `9 <= end <= 2^24`.
    pub fn new(alloc: Global, table: Table, end: u64, first: u32) -> Core
        requires set_up { IsTrue (is_setup (setup_or_none table.setup)) }
        requires least { 9 ≤ end }
        requires most { end ≤ largest_journal }
        ensures { result ≡ record { table = table; setup = setup_or_none table.setup; end = end; jobs = []; next_job = first; append = None; barred = false } }
    {
        let (setup, master) = match table.setup() {
            Some(found) => found,
            None => unreachable!(),
        };
        Core {
            alloc,
            table,
            setup,
            master,
            end,
            jobs: Vec::new(alloc),
            next_job: first,
            append: None,
            barred: false,
        }
    }
}
