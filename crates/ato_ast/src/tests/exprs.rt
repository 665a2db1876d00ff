use super::{AT, named, number};
use crate::{Choice, Expr, Literal, Number, Part, Path, Scale, Sign, Unit};
use ato_base::{List, Name, NoMemory, TokenKind};
use sqlite_items::{Boxed, Items};
use std::alloc::Global;

/// The unit `name9`.
const UNIT: Option<Unit> = Some(Unit::Name(Name(9)));

/// A number with neither sign nor unit.
pub fn plain(number: Number) -> Part {
    Part {
        minus: false,
        number,
        unit: None,
        at: AT,
    }
}

/// `10@1 name9`
pub fn ten() -> Part {
    Part {
        unit: UNIT,
        ..plain(number(10, 1))
    }
}

/// `- decimal@2`
fn below_zero() -> Part {
    let number = Number {
        whole: false,
        small: None,
        ..number(0, 2)
    };
    Part {
        minus: true,
        ..plain(number)
    }
}

/// `5@3 %`
fn percent() -> Part {
    Part {
        unit: Some(Unit::Percent),
        ..plain(number(5, 3))
    }
}

/// A literal of each form: `10@1 name9`, `- decimal@2 to 10@1 name9`, `10@1 name9 +/- 5@3 %`.
pub fn literals(alloc: Global) -> Result<List<Literal>, NoMemory> {
    let mut literals = List::new(alloc);
    literals.push(Literal::One(ten()))?;
    literals.push(Literal::To(below_zero(), ten()))?;
    literals.push(Literal::About(ten(), percent()))?;
    Ok(literals)
}

/// The path of these names and this pin.
pub fn path(alloc: Global, names: &[usize], pin: Option<TokenKind>) -> Result<Path, NoMemory> {
    let mut steps = List::new(alloc);
    for name in names {
        steps.push(named(*name))?;
    }
    Ok(Path { steps, pin, at: AT })
}

/// The path of one name.
pub fn leaf(alloc: Global, name: usize) -> Result<Expr, NoMemory> {
    Ok(Expr::Path(path(alloc, &[name], None)?))
}

/// `name3 + name4 - name5`
pub fn sum(alloc: Global) -> Result<Expr, NoMemory> {
    let mut more = Items::new(alloc);
    more.push((Sign::Plus, leaf(alloc, 4)?))?;
    more.push((Sign::Minus, leaf(alloc, 5)?))?;
    Ok(Expr::Sum(Boxed::new(alloc, leaf(alloc, 3)?)?, more, AT))
}

/// `name3 ** 2@4 * name4 / name5`
pub fn product(alloc: Global) -> Result<Expr, NoMemory> {
    let power = Expr::Power(Boxed::new(alloc, leaf(alloc, 3)?)?, number(2, 4), AT);
    let mut more = Items::new(alloc);
    more.push((Scale::Times, leaf(alloc, 4)?))?;
    more.push((Scale::Over, leaf(alloc, 5)?))?;
    Ok(Expr::Product(Boxed::new(alloc, power)?, more, AT))
}

/// `name0 ( ( name3 + name4 - name5 ) )`
pub fn absolute(alloc: Global) -> Result<Expr, NoMemory> {
    let group = Expr::Group(Boxed::new(alloc, sum(alloc)?)?, AT);
    Ok(Expr::Abs(Boxed::new(alloc, group)?, AT))
}

/// `min` or `max` of `name3` and these.
pub fn choice(alloc: Global, choice: Choice, names: &[usize]) -> Result<Expr, NoMemory> {
    let mut more = Items::new(alloc);
    for name in names {
        more.push(leaf(alloc, *name)?)?;
    }
    Ok(Expr::Choice(choice, Boxed::new(alloc, leaf(alloc, 3)?)?, more, AT))
}
