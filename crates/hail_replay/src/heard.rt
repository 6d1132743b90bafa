// What the jobs of a replay heard.
ghost use Rattle.std.specs.Prelude.{◌≡◌, ◌≤◌, ◌++◌, [], OnOk};
ghost use Rattle.hail_replay.specs.Heard.{entries_heard, room_of, joined};

use std::alloc::Global;
use stream_model::Memory;
use vault::HeardList;

/// What several jobs heard, in the order of their ends. Their lists are kept as they came, and no block is
/// copied.
#[derive(Drop)]
pub struct HeardLists {
    pub(crate) first: HeardList,
    pub(crate) more: Option<Vec<HeardList>>,
}

impl HeardLists {
    /// What one job heard. It takes no memory, and there is no room for more.
    pub fn one(list: HeardList) -> HeardLists
        ensures { entries_heard result ≡ list }
    {
        HeardLists {
            first: list,
            more: None,
        }
    }

    /// Nothing heard.
    pub fn new(alloc: Global) -> HeardLists
        ensures { entries_heard result ≡ [] }
    {
        HeardLists {
            first: HeardList::new(),
            more: Some(Vec::new(alloc)),
        }
    }

    /// Makes room for what one more job heard.
    pub fn reserve(&mut self, alloc: Global) -> Result<(), Memory>
        ensures same { entries_heard self.new ≡ entries_heard self.old }
        ensures room { OnOk result (1 ≤ room_of self.new) }
    {
        match &mut self.more {
            Some(more) => more.reserve(1)?,
            None => {
                let mut more = Vec::new(alloc);
                more.reserve(1)?;
                self.more = Some(more);
            }
        }
        Ok(())
    }

    /// Adds what one more job heard. Condition: there is room for it.
    #[tactic(auto, using(crate::proofs::Lists::behind_first))]
    pub fn push(&mut self, list: HeardList)
        requires { 1 ≤ room_of self.old }
        ensures { entries_heard self.new ≡ entries_heard self.old ++ list }
    {
        match &mut self.more {
            Some(more) => more.push_reserved(list),
            None => {}
        }
    }

    /// What was heard, job by job: the first list, and those behind it. A list may be of a job that heard
    /// nothing.
    pub fn lists(&self) -> (&HeardList, &[HeardList])
        ensures { entries_heard self.now ≡ result.0.now ++ joined result.1.now }
    {
        match &self.more {
            Some(more) => (&self.first, more.as_slice()),
            None => (&self.first, &[]),
        }
    }
}
