// Merges of studies that no two texts can show: studies without entries and the empty study; and refused merges, which give nothing back,
// so that the first study is shown.
use crate::additions::{add_trains, plain_segment, show, with_segments};
use crate::entitlements::show_level;
use entitlement::reported;
use request::MOST_CELLS;
use std::io;
use study::Study;

// Segments at 10 m, and trains at the last of them.
pub(crate) fn near(segments: usize, trains: usize) -> Study {
    let mut study = with_segments(segments);
    add_trains(&mut study, trains);
    study
}

// A segment at 50 m, so that a train's level tells its segment.
fn far(trains: usize) -> Study {
    let mut study = Study::new();
    let _ = study.add_segment(plain_segment(5000));
    add_trains(&mut study, trains);
    study
}

// Writes whether two studies are merged, and of the study of both, or of the first where they are not, how many segments and entries it
// has and its levels in tenths.
fn show_trial(rt: &impl Print, title: &str, first: &Study, second: &Study) -> io::Result<()> {
    println!(rt; "{title}")?;
    let merged = merging::merge(first, second);
    show(rt, "merge", &merged)?;
    let study = merged.as_ref().unwrap_or(first);
    let segments = study.segments().len();
    let entries = study.entries().len();
    println!(rt; "holds segments {segments} entries {entries}")?;
    let mut cells = [0i32; MOST_CELLS];
    let answer = request::levels(study, &mut cells);
    show(rt, "levels", &answer)?;
    let heard = reported(answer.ok());
    show_level(rt, "heard day", heard.day)?;
    show_level(rt, " night", heard.night)?;
    println!(rt)
}

// 24 segments and 96 entries together, and one more of either or of both.
fn show_limits(rt: &impl Print) -> io::Result<()> {
    let first = near(12, 48);
    show_trial(
        rt,
        "# Merge: 24 segments and 96 entries together",
        &first,
        &near(12, 48),
    )?;
    show_trial(rt, "# Merge: 25 segments together", &first, &near(13, 1))?;
    show_trial(rt, "# Merge: 97 entries together", &first, &near(12, 49))?;
    show_trial(
        rt,
        "# Merge: 25 segments and 97 entries together",
        &first,
        &near(13, 49),
    )
}

// Studies without entries on either side.
fn show_unheard(rt: &impl Print) -> io::Result<()> {
    show_trial(
        rt,
        "# Merge: a first study without an entry",
        &near(1, 0),
        &far(1),
    )?;
    show_trial(
        rt,
        "# Merge: a second study without an entry",
        &far(1),
        &near(1, 0),
    )?;
    show_trial(
        rt,
        "# Merge: two studies without an entry",
        &near(1, 0),
        &far(0),
    )?;
    show_trial(rt, "# Merge: with the empty study", &far(1), &Study::new())?;
    show_trial(rt, "# Merge: to the empty study", &Study::new(), &far(1))?;
    show_trial(
        rt,
        "# Merge: the empty study twice",
        &Study::new(),
        &Study::new(),
    )
}

pub(crate) fn show_each(rt: &impl Print) -> io::Result<()> {
    show_limits(rt)?;
    show_unheard(rt)
}
