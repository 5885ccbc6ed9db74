// Highest speeds over studies that no text can show: without entries, with refused additions, merged; and over one that is worked out in full.
use crate::additions::{add_trains, plain_segment, show, show_kept_speed, with_segments};
use crate::merges::near;
use figures::{Period, Segment, Train};
use std::io;
use study::Study;
use writing::signed;

fn open_segment() -> Segment {
    Segment {
        height: 180,
        mean: 420,
        soft: 3,
        view: 160,
        doubled: 170,
        facade: 1,
        ..plain_segment(2600)
    }
}

// Behind an absorbent screen, with a far wall.
fn screened_segment() -> Segment {
    Segment {
        height: 150,
        mean: 300,
        soft: 4,
        view: 90,
        doubled: 120,
        screen: 1,
        setback: 900,
        top: 260,
        facade: 1,
        opposite: 10,
        wall: 15,
        ..plain_segment(6200)
    }
}

// Far off and seen under a small angle, so that one slow train reads below zero.
fn faint_segment() -> Segment {
    Segment {
        mean: 300,
        soft: 10,
        view: 5,
        doubled: 5,
        ..plain_segment(30000)
    }
}

fn train(row: i32, speed: i32, vehicles: i32, day: i32, night: i32) -> Train {
    Train {
        row,
        speed,
        vehicles,
        day,
        night,
    }
}

// One segment with one train.
fn with_one(segment: Segment, train: Train) -> Study {
    let mut study = Study::new();
    let _ = study.add_segment(segment);
    let _ = study.add_train(train);
    study
}

// Loud trains by day alone, faster ones behind a screen, and a few that crawl there.
fn worked_study() -> Study {
    let mut study = with_one(open_segment(), train(4, 110, 9, 60, 0));
    let _ = study.add_segment(screened_segment());
    let _ = study.add_train(train(13, 140, 8, 90, 20));
    let _ = study.add_train(train(4, 7, 3, 10, 2));
    study
}

// The same study, with a refused addition before and after each of its own.
fn with_refusals() -> Study {
    let mut study = Study::new();
    let _ = study.add_train(train(4, 110, 9, 60, 0));
    let _ = study.add_segment(open_segment());
    let _ = study.add_train(train(4, 0, 9, 60, 0));
    let _ = study.add_train(train(4, 110, 9, 60, 0));
    let _ = study.add_segment(plain_segment(999));
    let _ = study.add_segment(screened_segment());
    let _ = study.add_train(train(35, 140, 8, 90, 20));
    let _ = study.add_train(train(13, 140, 8, 90, 20));
    let _ = study.add_train(train(4, 301, 3, 10, 2));
    let _ = study.add_train(train(4, 7, 3, 10, 2));
    let _ = study.add_train(train(4, 7, 0, 10, 2));
    study
}

// A segment without an entry, and another with one.
fn other_study() -> Study {
    let mut study = Study::new();
    let _ = study.add_segment(screened_segment());
    let _ = study.add_segment(open_segment());
    let _ = study.add_train(train(15, 60, 20, 12, 12));
    study
}

// The study of both where there is room, else the first.
fn merged(first: Study, second: &Study) -> Study {
    merging::merge(&first, second).unwrap_or(first)
}

// Beside a refusal the 0 that C gets as its speed is shown.
fn show_speed(
    rt: &impl Print,
    study: &Study,
    entry: usize,
    period: Period,
    limit: i32,
) -> io::Result<()> {
    let name = match period {
        Period::Day => "day",
        Period::Night => "night",
    };
    let answer = speeds::highest_speed(study, entry, period, limit);
    let speed = answer.unwrap_or(0);
    let limit = signed(limit);
    print!(rt; "entry {entry} {name} limit {limit} speed {speed}")?;
    show(rt, "", &answer)
}

fn show_speeds(
    rt: &impl Print,
    study: &Study,
    entry: usize,
    period: Period,
    limits: &[i32],
) -> io::Result<()> {
    for &limit in limits {
        show_speed(rt, study, entry, period, limit)?;
    }
    Ok(())
}

// 25 in place of 23, and before 26.
fn show_absent(rt: &impl Print) -> io::Result<()> {
    println!(rt; "# Highest speed: the empty study")?;
    let empty = Study::new();
    show_speed(rt, &empty, 0, Period::Day, 60)?;
    show_speed(rt, &empty, 1, Period::Day, 60)?;
    show_speed(rt, &empty, 96, Period::Day, 60)?;
    show_speed(rt, &empty, 1, Period::Night, i32::MIN)?;
    println!(rt; "# Highest speed: segments without an entry")?;
    let segments = with_segments(2);
    show_speed(rt, &segments, 0, Period::Day, 60)?;
    show_speed(rt, &segments, 1, Period::Day, 60)?;
    show_speed(rt, &segments, 2, Period::Night, i32::MIN)
}

fn show_worked(rt: &impl Print) -> io::Result<()> {
    println!(rt; "# Highest speed: three entries in two segments")?;
    let study = worked_study();
    show_speed(rt, &study, 0, Period::Day, 60)?;
    show_speeds(
        rt,
        &study,
        1,
        Period::Day,
        &[50, 60, 64, 66, 67, 68, 70, 75, i32::MIN, i32::MAX],
    )?;
    show_speeds(rt, &study, 1, Period::Night, &[43, 44, 50, i32::MIN])?;
    show_speeds(rt, &study, 2, Period::Day, &[64, 66])?;
    show_speeds(rt, &study, 2, Period::Night, &[30, 43, 50])?;
    show_speeds(rt, &study, 3, Period::Day, &[64, 65])?;
    show_speeds(rt, &study, 3, Period::Night, &[43, 44, 45])?;
    show_speed(rt, &study, 4, Period::Day, 60)?;
    show_speed(rt, &study, usize::MAX, Period::Day, 60)
}

// A refused train counts as no entry, and a refused segment takes none.
fn show_refusals(rt: &impl Print) -> io::Result<()> {
    println!(rt; "# Highest speed: refused additions around each entry")?;
    let study = with_refusals();
    show_speed(rt, &study, 1, Period::Day, 68)?;
    show_speed(rt, &study, 2, Period::Day, 66)?;
    show_speed(rt, &study, 2, Period::Night, 43)?;
    show_speed(rt, &study, 3, Period::Night, 44)?;
    show_speed(rt, &study, 4, Period::Day, 68)
}

// A speed that crawls is kept as typed, and answered from 20 km/h on.
fn show_slow(rt: &impl Print) -> io::Result<()> {
    println!(rt; "# Highest speed: a train at 7 km/h")?;
    let study = with_one(plain_segment(1000), train(1, 7, 1, 1, 1));
    show_speeds(rt, &study, 1, Period::Day, &[28, 29, 42, 52, 53])?;
    show_speeds(rt, &study, 1, Period::Night, &[33, 34])?;
    show_kept_speed(rt, &study)
}

// The last of 96 entries, after which a train was refused.
fn show_full(rt: &impl Print) -> io::Result<()> {
    println!(rt; "# Highest speed: 96 entries")?;
    let mut study = near(1, 95);
    let _ = study.add_train(train(1, 100, 10, 100, 1));
    add_trains(&mut study, 1);
    show_speeds(rt, &study, 1, Period::Day, &[72, 73])?;
    show_speed(rt, &study, 96, Period::Day, 68)?;
    show_speed(rt, &study, 97, Period::Day, 68)
}

// An entry that is silent in the period beside one that is not, and both silent.
fn show_silent(rt: &impl Print) -> io::Result<()> {
    println!(rt; "# Highest speed: no trains by night")?;
    let mut study = with_one(plain_segment(1000), train(1, 100, 1, 0, 0));
    let _ = study.add_train(train(1, 100, 1, 1, 0));
    let limits = [i32::MIN, -1, 0, 60, i32::MAX];
    show_speeds(rt, &study, 1, Period::Night, &limits)?;
    show_speeds(rt, &study, 2, Period::Night, &limits)?;
    show_speeds(rt, &study, 1, Period::Day, &[42, 43])?;
    show_speed(rt, &study, 2, Period::Day, 42)
}

// Halves go up below zero too.
fn show_faint(rt: &impl Print) -> io::Result<()> {
    println!(rt; "# Highest speed: a total below zero")?;
    let study = with_one(faint_segment(), train(9, 20, 1, 1, 1));
    show_speeds(rt, &study, 1, Period::Day, &[-38, -37, 0])?;
    show_speeds(rt, &study, 1, Period::Night, &[-33, -32])
}

fn show_merged(rt: &impl Print) -> io::Result<()> {
    println!(rt; "# Highest speed: a merged study")?;
    let study = merged(worked_study(), &other_study());
    show_speeds(rt, &study, 1, Period::Day, &[60, 66])?;
    show_speeds(rt, &study, 4, Period::Day, &[65, 66, 68])?;
    show_speeds(rt, &study, 4, Period::Night, &[44, 60, 66])?;
    show_speed(rt, &study, 5, Period::Day, 68)?;
    println!(rt; "# Highest speed: merged the other way round")?;
    let turned = merged(other_study(), &worked_study());
    show_speed(rt, &turned, 1, Period::Night, 66)?;
    show_speed(rt, &turned, 2, Period::Day, 66)?;
    show_speed(rt, &turned, 5, Period::Day, 66)?;
    println!(rt; "# Highest speed: a refused merge")?;
    let refused = merged(near(12, 48), &near(13, 1));
    show_speeds(rt, &refused, 48, Period::Day, &[59, 60])?;
    show_speed(rt, &refused, 49, Period::Day, 60)
}

pub(crate) fn show_each(rt: &impl Print) -> io::Result<()> {
    show_absent(rt)?;
    show_worked(rt)?;
    show_refusals(rt)?;
    show_slow(rt)?;
    show_full(rt)?;
    show_silent(rt)?;
    show_faint(rt)?;
    show_merged(rt)
}
