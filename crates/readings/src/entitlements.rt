// Entitlement over studies: refusal 23, which no text can show, and lines that are marked as empty.
use crate::additions::{show, with_segments};
use decibel::Level;
use entitlement::{Entitlement, Layout, PeriodEntitlement, Studies, entitlement_of};
use figures::Train;
use std::io;
use study::Study;

// One segment with one entry of so many trains by day and by night.
fn lines(day: i32, night: i32) -> Study {
    let mut study = with_segments(1);
    let _ = study.add_train(Train {
        row: 1,
        speed: 100,
        vehicles: 1,
        day,
        night,
    });
    study
}

// A level in tenths.
pub(crate) fn show_level(rt: &impl Print, name: &str, level: Level) -> io::Result<()> {
    match level {
        Level::Silent => print!(rt; "{name} silent"),
        Level::Figure(tenths) => print!(rt; "{name} {tenths}"),
    }
}

fn show_condition(rt: &impl Print, name: &str, holds: bool) -> io::Result<()> {
    let answer = if holds { "yes" } else { "no" };
    print!(rt; "{name} {answer}")
}

fn show_period(rt: &impl Print, name: &str, period: PeriodEntitlement) -> io::Result<()> {
    print!(rt; "{name}")?;
    show_level(rt, " prevailing", period.prevailing.level)?;
    show_level(rt, " relevant", period.relevant.level)?;
    show_condition(rt, " reaches", period.reaches)?;
    show_condition(rt, " rises", period.rises)?;
    show_condition(rt, " contributes", period.contributes)?;
    show_condition(rt, " entitled", period.entitled)?;
    println!(rt)
}

fn show_trial(
    rt: &impl Print,
    places: &str,
    kind: &str,
    before: Studies,
    after: Studies,
) -> io::Result<()> {
    println!(rt; "# Entitlement: {places} {kind}")?;
    let answer = entitlement_of(before, after);
    show(rt, "entitlement", &answer)?;
    let house = answer.unwrap_or(Entitlement::silent());
    show_period(rt, "day", house.day)?;
    show_period(rt, "night", house.night)?;
    show_condition(rt, "house", house.entitled)?;
    println!(rt)
}

fn layout<'a>(altered: Option<&'a Study>, other: Option<&'a Study>) -> Studies<'a> {
    Layout { altered, other }
}

// Other lines at each of the four places, beside few trains at the others.
fn show_places(rt: &impl Print, few: &Study, lines: Option<&Study>, kind: &str) -> io::Result<()> {
    let few = Some(few);
    let both = layout(few, few);
    show_trial(rt, "altered lines before", kind, layout(lines, few), both)?;
    show_trial(rt, "altered lines after", kind, both, layout(lines, few))?;
    show_trial(rt, "other lines before", kind, layout(few, lines), both)?;
    show_trial(rt, "other lines after", kind, both, layout(few, lines))
}

// No lines anywhere.
fn show_empty(rt: &impl Print) -> io::Result<()> {
    let none = layout(None, None);
    show_trial(rt, "all four", "marked as empty", none, none)
}

// No trains by night before the works, and many after them.
fn show_night(rt: &impl Print, few: &Study) -> io::Result<()> {
    let quiet = lines(1, 0);
    let loud = lines(1, 2000);
    let before = layout(Some(&quiet), Some(few));
    let after = layout(Some(&loud), Some(few));
    show_trial(rt, "many trains", "by night", before, after)
}

pub(crate) fn show_each(rt: &impl Print) -> io::Result<()> {
    let few = lines(1, 1);
    let unheard = with_segments(1);
    show_places(rt, &few, Some(&unheard), "without an entry")?;
    show_places(rt, &few, None, "marked as empty")?;
    show_empty(rt)?;
    show_night(rt, &few)
}
