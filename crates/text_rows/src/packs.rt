use crate::given::no_other;
use crate::scrubs::{Row, first_other};

static ROWS: [Row; 8] = [
    // a journal of the first version is not packed
    Row {
        disk: &[],
        fails: &[],
        schedule: "begin pack\n",
        lines: "refused OldVersion\n",
        heard: 0,
    },
    // four moves, and the end, which tells the lengths of the text before and after
    Row {
        disk: &[],
        fails: &[],
        schedule: "begin upgrade\nrun 1\nbegin pack\nstep 2\nstep 2\nstep 2\nstep 2\nstep 2\nstep 2\n",
        lines: "job 1\nupgraded\njob 2\nmore\nmore\nmore\nmore\npacked 54 64\nrefused NoSuchJob\n",
        heard: 0,
    },
    // a second one goes back into the first area, whose text is counted from the start of the disk
    Row {
        disk: &[],
        fails: &[],
        schedule: "begin upgrade\nrun 1\nbegin pack\nrun 2\nbegin pack\nrun 3\n",
        lines: "job 1\nupgraded\njob 2\npacked 54 64\njob 3\npacked 64 72\n",
        heard: 0,
    },
    // a file stays, and is got behind it
    Row {
        disk: &[],
        fails: &[],
        schedule: "begin upgrade\nrun 1\nbegin put a 6f 0\nrun 2\nbegin pack\nrun 3\nlist\nbegin get a\nrun 4\n",
        lines: "job 1\nupgraded\njob 2\nput\njob 3\npacked 81 81\nnames 1\na 1\njob 4\ngot 6f\n",
        heard: 4,
    },
    // what is put behind it stands in the second area
    Row {
        disk: &[],
        fails: &[],
        schedule: "begin upgrade\nrun 1\nbegin pack\nrun 2\nbegin put a 6f 1\nrun 3\nstop -\nreopen\nlist\nbegin pack\nrun 4\n",
        lines: "job 1\nupgraded\njob 2\npacked 54 64\njob 3\nput\nstopped\nopened\nnames 1\na 1\njob 4\npacked 91 89\n",
        heard: 0,
    },
    // beside it nothing begins, and no other number is a job
    Row {
        disk: &[],
        fails: &[],
        schedule: "begin upgrade\nrun 1\nbegin pack\nbegin pack\nbegin scrub\nbegin put a 00\nbegin get a/b\nbegin audit\nbegin upgrade\nrun 1\nrun 2\nbegin get a\n",
        lines: "job 1\nupgraded\njob 2\nrefused Busy\nrefused Busy\nrefused Busy\nrefused Busy\nrefused Busy\nrefused Busy\nrefused NoSuchJob\npacked 54 64\nrefused NoSuchName\n",
        heard: 0,
    },
    // a stop before the third move leaves the old text
    Row {
        disk: &[],
        fails: &[],
        schedule: "begin upgrade\nrun 1\nbegin pack\nstep 2\nstep 2\nstop -\nreopen\nbegin pack\nrun 3\n",
        lines: "job 1\nupgraded\njob 2\nmore\nmore\nstopped\nopened\njob 3\npacked 54 64\n",
        heard: 0,
    },
    // one behind the fourth leaves the packed text
    Row {
        disk: &[],
        fails: &[],
        schedule: "begin upgrade\nrun 1\nbegin pack\nstep 2\nstep 2\nstep 2\nstep 2\nstop -\nreopen\nbegin pack\nrun 3\n",
        lines: "job 1\nupgraded\njob 2\nmore\nmore\nmore\nmore\nstopped\nopened\njob 3\npacked 64 72\n",
        heard: 0,
    },
];

#[test]
fn a_pack_is_begun_stepped_and_told(rt: HostRuntime) {
    no_other(&rt, first_other(rt.alloc(), &ROWS));
}

/// Packs that a job, a stop, a reopening or the disk keeps from their end.
static CUT: [Row; 8] = [
    // beside a job or a scrub it does not begin
    Row {
        disk: &[],
        fails: &[],
        schedule: "begin upgrade\nrun 1\nbegin put a 00\nbegin pack\nrun 2\nbegin scrub\nbegin pack\nrun 3\nbegin pack\nrun 4\n",
        lines: "job 1\nupgraded\njob 2\nrefused Busy\nput\njob 3\nrefused Busy\nscrubbed 1 symbols 0 0 0 0\njob 4\npacked 81 81\n",
        heard: 0,
    },
    // a stop drops it
    Row {
        disk: &[],
        fails: &[],
        schedule: "begin upgrade\nrun 1\nbegin pack\nstep 2\nstop -\nstep 2\nbegin pack\nreopen\nstep 2\nbegin pack\nrun 3\n",
        lines: "job 1\nupgraded\njob 2\nmore\nstopped\nclosed\nclosed\nopened\nrefused NoSuchJob\njob 3\npacked 54 64\n",
        heard: 0,
    },
    // so does a reopening, which makes firm the byte that names the area
    Row {
        disk: &[],
        fails: &[],
        schedule: "begin upgrade\nrun 1\nbegin pack\nstep 2\nstep 2\nstep 2\nreopen\nstep 2\nbegin pack\nrun 3\n",
        lines: "job 1\nupgraded\njob 2\nmore\nmore\nmore\nopened\nrefused NoSuchJob\njob 3\npacked 64 72\n",
        heard: 0,
    },
    // a stop before that byte is synced sets it
    Row {
        disk: &[],
        fails: &[],
        schedule: "begin upgrade\nrun 1\nbegin pack\nstep 2\nstep 2\nstep 2\nstop 31\nreopen\nbegin pack\nstep 3\nstep 3\nstep 3\nstop 32\nreopen\nbegin pack\nrun 4\n",
        lines: "job 1\nupgraded\njob 2\nmore\nmore\nmore\nstopped\nopened\njob 3\nmore\nmore\nmore\nstopped\nopened\njob 4\npacked 64 72\n",
        heard: 0,
    },
    // its text is not written
    Row {
        disk: &[15],
        fails: &[],
        schedule: "begin upgrade\nrun 1\nbegin pack\nrun 2\nbegin pack\nbegin get a\nreopen\nbegin pack\nrun 3\nlist\n",
        lines: "job 1\nupgraded\njob 2\ndisk fault\nrefused MustReopen\nrefused MustReopen\nopened\njob 3\npacked 54 64\nnames 0\n",
        heard: 0,
    },
    // nor synced
    Row {
        disk: &[16],
        fails: &[],
        schedule: "begin upgrade\nrun 1\nbegin pack\nrun 2\nbegin pack\nbegin get a\nreopen\nbegin pack\nrun 3\nlist\n",
        lines: "job 1\nupgraded\njob 2\ndisk fault\nrefused MustReopen\nrefused MustReopen\nopened\njob 3\npacked 54 64\nnames 0\n",
        heard: 0,
    },
    // the byte is not written
    Row {
        disk: &[17],
        fails: &[],
        schedule: "begin upgrade\nrun 1\nbegin pack\nrun 2\nbegin pack\nbegin get a\nreopen\nbegin pack\nrun 3\nlist\n",
        lines: "job 1\nupgraded\njob 2\ndisk fault\nrefused MustReopen\nrefused MustReopen\nopened\njob 3\npacked 54 64\nnames 0\n",
        heard: 0,
    },
    // it is not synced, but read
    Row {
        disk: &[18],
        fails: &[],
        schedule: "begin upgrade\nrun 1\nbegin pack\nrun 2\nbegin pack\nbegin get a\nreopen\nbegin pack\nrun 3\nlist\n",
        lines: "job 1\nupgraded\njob 2\ndisk fault\nrefused MustReopen\nrefused MustReopen\nopened\njob 3\npacked 64 72\nnames 0\n",
        heard: 0,
    },
];

#[test]
fn a_pack_that_is_cut_leaves_one_of_two_areas(rt: HostRuntime) {
    no_other(&rt, first_other(rt.alloc(), &CUT));
}
