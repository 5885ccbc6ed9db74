// What no text can show: refusals by the study's condition, 20 to 24, of additions and of the request for levels, and the speed that a study keeps.
use figures::{Refusal, Segment, Train};
use request::MOST_CELLS;
use std::io;
use study::Study;

// A segment that keeps its lines but perhaps for its distance. Its other figures are 0, as at a place that nothing was added to.
pub(crate) fn plain_segment(distance: i32) -> Segment {
    Segment {
        distance,
        view: 180,
        doubled: 180,
        ..Segment::default()
    }
}

// A train that keeps its lines but perhaps for its row.
fn plain_train(row: i32) -> Train {
    Train {
        row,
        speed: 100,
        vehicles: 1,
        day: 1,
        night: 1,
    }
}

pub(crate) fn with_segments(n: usize) -> Study {
    let mut study = Study::new();
    for _ in 0..n {
        let _ = study.add_segment(plain_segment(1000));
    }
    study
}

pub(crate) fn add_trains(study: &mut Study, n: usize) {
    for _ in 0..n {
        let _ = study.add_train(plain_train(1));
    }
}

// Writes what was refused, or that it was accepted.
pub(crate) fn show<T>(rt: &impl Print, name: &str, answer: &Result<T, Refusal>) -> io::Result<()> {
    match answer {
        Ok(_) => println!(rt; "{name} accepted"),
        Err(refusal) => println!(rt; "{name} refused {}", u32::from(*refusal)),
    }
}

// A study of so many segments and one more of some distance, so many trains and one more of some row: writes what the last segment,
// the last train and the request for levels with some cells are answered.
fn show_trial(
    rt: &impl Print,
    title: &str,
    segments: usize,
    distance: i32,
    trains: usize,
    row: i32,
    cells: &mut [i32],
) -> io::Result<()> {
    println!(rt; "{title}")?;
    let mut study = with_segments(segments);
    let segment = study.add_segment(plain_segment(distance));
    add_trains(&mut study, trains);
    let train = study.add_train(plain_train(row));
    show(rt, "segment", &segment)?;
    show(rt, "train", &train)?;
    show(rt, "levels", &request::levels(&study, cells))
}

// 21, and that it comes before a segment's own refusal.
fn show_segments(rt: &impl Print, cells: &mut [i32]) -> io::Result<()> {
    show_trial(rt, "# Additions: a 24th segment", 23, 1000, 0, 1, cells)?;
    show_trial(
        rt,
        "# Additions: a 25th segment that keeps its lines",
        24,
        1000,
        0,
        1,
        cells,
    )?;
    show_trial(
        rt,
        "# Additions: a 25th segment of distance 999",
        24,
        999,
        0,
        1,
        cells,
    )
}

// 20 and 22, and that they come before a train's own refusal.
fn show_entries(rt: &impl Print, cells: &mut [i32]) -> io::Result<()> {
    show_trial(
        rt,
        "# Additions: a train after a refused segment",
        0,
        999,
        0,
        1,
        cells,
    )?;
    show_trial(rt, "# Additions: a 96th entry", 0, 1000, 95, 1, cells)?;
    show_trial(
        rt,
        "# Additions: a 97th entry of row 0",
        0,
        1000,
        96,
        0,
        cells,
    )
}

// 23 and 24, in this order.
fn show_requests(rt: &impl Print, cells: &mut [i32], few: &mut [i32]) -> io::Result<()> {
    show_trial(
        rt,
        "# Additions: a segment without an entry",
        0,
        1000,
        0,
        0,
        cells,
    )?;
    show_trial(
        rt,
        "# Additions: two entries with 3 cells",
        0,
        1000,
        1,
        1,
        few,
    )?;
    show_trial(rt, "# Additions: no entry with 3 cells", 0, 999, 0, 1, few)
}

// Writes the speed that a study holds for its first entry.
pub(crate) fn show_kept_speed(rt: &impl Print, study: &Study) -> io::Result<()> {
    match study.entries().first() {
        Some(entry) => println!(rt; "kept speed {}", entry.train.speed),
        None => Ok(()),
    }
}

fn show_kept(rt: &impl Print) -> io::Result<()> {
    println!(rt; "# Additions: a train at 7 km/h")?;
    let mut study = with_segments(1);
    let added = study.add_train(Train {
        speed: 7,
        ..plain_train(1)
    });
    show(rt, "train", &added)?;
    show_kept_speed(rt, &study)
}

pub(crate) fn show_each(rt: &impl Print) -> io::Result<()> {
    let mut cells = [0i32; MOST_CELLS];
    let mut few = [0i32; 3];
    show_segments(rt, &mut cells)?;
    show_entries(rt, &mut cells)?;
    show_requests(rt, &mut cells, &mut few)?;
    show_kept(rt)
}
