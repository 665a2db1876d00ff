ghost use Rattle.std.specs.Prelude.{◌≡◌, ◌∷◌, [], OnOk, IfOk};
ghost use Rattle.ato_first.specs.FirstPoints.{signal_names, pin_labels, end_points, line_points, lines_points, end_point};
ghost use Rattle.ato_nets.specs.Distinct.{distinct};
ghost use Rattle.ato_first.specs.FirstJoins.{Adds, point_number, line_joins, lines_joins};

use crate::first_form::{End, Line, Point};
use crate::text_set::TextSet;
use ato_base::NoMemory;
use std::alloc::Global;

/// The points of a block: the names of its signals and the labels of its pins.
#[derive(Drop)]
pub(crate) struct Points {
    pub signals: TextSet,
    pub pins: TextSet,
}

fn insert_point(points: &mut Points, point: &Point) -> Result<(), NoMemory>
    ensures { OnOk result (Adds points.old points.new (point.now ∷ [])) }
{
    match point {
        Point::Signal(name) => points.signals.insert(name.as_str()),
        Point::Pin(label) => points.pins.insert(label.as_str()),
    }
}

fn insert_end(points: &mut Points, end: &End) -> Result<(), NoMemory>
    ensures { OnOk result (Adds points.old points.new (end_points end.now)) }
{
    match end {
        End::Name(_) => Ok(()),
        End::Declared(point) => insert_point(points, point),
    }
}

fn insert_line(points: &mut Points, line: &Line) -> Result<(), NoMemory>
    ensures { OnOk result (Adds points.old points.new (line_points line.now)) }
{
    match line {
        Line::Pass => Ok(()),
        Line::Declaration(point) => insert_point(points, point),
        Line::Join(left, right) => {
            insert_end(points, left)?;
            insert_end(points, right)
        }
        Line::Kind(_) => Ok(()),
        Line::Attribute(_) => Ok(()),
        Line::Assertion(_) => Ok(()),
    }
}

/// The points that the lines declare, each once, in the order of their first declarations.
pub(crate) fn points_of(alloc: Global, lines: &[Line]) -> Result<Points, NoMemory>
    ensures signals { IfOk result (λ points. points.signals ≡ distinct (signal_names (lines_points lines.now))) }
    ensures pins { IfOk result (λ points. points.pins ≡ distinct (pin_labels (lines_points lines.now))) }
{
    let mut points = Points {
        signals: TextSet::new(alloc),
        pins: TextSet::new(alloc),
    };
    for line in lines {
        insert_line(&mut points, line)?;
    }
    Ok(points)
}

/// The number of the point that an end stands for: signals come first, then pins.
fn end_number(points: &Points, end: &End) -> usize
    ensures { result ≡ point_number points.now (end_point end.now) }
{
    match end {
        End::Name(name) => points.signals.number_of(name.as_str()),
        End::Declared(point) => match point {
            Point::Signal(name) => points.signals.number_of(name.as_str()),
            Point::Pin(label) => points.signals.len() + points.pins.number_of(label.as_str()),
        },
    }
}

/// The joins of the lines, by the numbers of their points.
pub(crate) fn joins_of(
    alloc: Global,
    points: &Points,
    lines: &[Line],
) -> Result<Vec<(usize, usize)>, NoMemory>
    ensures { IfOk result (λ joins. joins.items ≡ lines_joins points.now lines.now) }
{
    let mut joins = Vec::new(alloc);
    for line in lines {
        if let Line::Join(left, right) = line {
            joins.push((end_number(points, left), end_number(points, right)))?;
        }
    }
    Ok(joins)
}
