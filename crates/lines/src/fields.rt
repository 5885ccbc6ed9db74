// A segment's line and a train entry's: each number goes to its field as it is read, or the line is refused there. Ranges are judged after the whole line is read, so that 12 comes first.
ghost use Rattle.std.specs.Prelude.{◌≡◌};
ghost use Rattle.lines.specs.Lines.{segment_of, train_of};

use crate::numbers::Numbers;
use figures::{Segment, Train};

// The 15 numbers of a segment's line, each by a `let .. else` of its own, the form that the project's scope asks for here. Not one function
// with the train's: each number goes to a field of its own, by name.
pub fn segment_of(line: &[u8]) -> Option<Segment>
    ensures { result ≡ segment_of line.now }
{
    let mut numbers = Numbers::new(line);
    let mut segment = Segment::default();
    let Some(distance) = numbers.next_number() else {
        return None;
    };
    segment.distance = distance;
    let Some(height) = numbers.next_number() else {
        return None;
    };
    segment.height = height;
    let Some(mean) = numbers.next_number() else {
        return None;
    };
    segment.mean = mean;
    let Some(soft) = numbers.next_number() else {
        return None;
    };
    segment.soft = soft;
    let Some(view) = numbers.next_number() else {
        return None;
    };
    segment.view = view;
    let Some(doubled) = numbers.next_number() else {
        return None;
    };
    segment.doubled = doubled;
    let Some(screen) = numbers.next_number() else {
        return None;
    };
    segment.screen = screen;
    let Some(setback) = numbers.next_number() else {
        return None;
    };
    segment.setback = setback;
    let Some(top) = numbers.next_number() else {
        return None;
    };
    segment.top = top;
    let Some(chart) = numbers.next_number() else {
        return None;
    };
    segment.chart = chart;
    let Some(track) = numbers.next_number() else {
        return None;
    };
    segment.track = track;
    let Some(ballast) = numbers.next_number() else {
        return None;
    };
    segment.ballast = ballast;
    let Some(facade) = numbers.next_number() else {
        return None;
    };
    segment.facade = facade;
    let Some(opposite) = numbers.next_number() else {
        return None;
    };
    segment.opposite = opposite;
    let Some(wall) = numbers.next_number() else {
        return None;
    };
    segment.wall = wall;
    numbers.is_empty().then_some(segment)
}

// The 5 numbers of a train entry's line.
pub fn train_of(line: &[u8]) -> Option<Train>
    ensures { result ≡ train_of line.now }
{
    let mut numbers = Numbers::new(line);
    let mut train = Train::default();
    let Some(row) = numbers.next_number() else {
        return None;
    };
    train.row = row;
    let Some(speed) = numbers.next_number() else {
        return None;
    };
    train.speed = speed;
    let Some(vehicles) = numbers.next_number() else {
        return None;
    };
    train.vehicles = vehicles;
    let Some(day) = numbers.next_number() else {
        return None;
    };
    train.day = day;
    let Some(night) = numbers.next_number() else {
        return None;
    };
    train.night = night;
    numbers.is_empty().then_some(train)
}
