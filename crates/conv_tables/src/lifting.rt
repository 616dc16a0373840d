//! Models carried back: the values that steps give names, and converters put together.
ghost use Rattle.std.specs.Prelude.{◌≡◌, length, IfOk};
ghost use Rattle.qterm.specs.declared.name.Sort.TheVariants.{Int};
ghost use Rattle.model_conv.specs.Step.{IsIntForm, IsLawful, AreLawful};

use model_conv::{Discarded, LiftError, LiftStep, ModelConv};
use qeval::{Model, Value};
use qterm::{Name, Sort};
use sqlite_items::Items;
use std::alloc::{AllocError, Global};
use std::process::Abort;
use std::test::Fail;
use table_terms::named;

/// Two numbers, each with the letter of an Int name.
type Form = [(i128, u8); 2];

/// A step about the Int name with a letter. Its flag is `p`.
#[derive(Clone, Copy)]
enum Give {
    Set(u8, i128),
    Assign(u8, Form, i128),
    Choose(u8, i128, Form, i128),
    Bit(u8),
    Forget(u8),
}

/// The Int name with this letter.
fn int(alloc: Global, letter: u8) -> Result<Name, AllocError>
    ensures { IfOk result (λ name. name.sort ≡ Int) }
{
    named(alloc, &[letter], Sort::Int)
}

/// The form.
fn form(alloc: Global, parts: Form) -> Result<Items<(i128, Name)>, AllocError>
    ensures { IfOk result IsIntForm }
{
    let [first, second] = parts;
    let mut form = Items::new(alloc);
    form.push((first.0, int(alloc, first.1)?))?;
    form.push((second.0, int(alloc, second.1)?))?;
    Ok(form)
}

/// The step.
fn step(alloc: Global, give: Give) -> Result<LiftStep, AllocError>
    ensures { IfOk result IsLawful }
{
    let flag = named(alloc, b"p", Sort::Bool)?;
    match give {
        Give::Set(letter, number) => Ok(LiftStep::Set {
            name: int(alloc, letter)?,
            value: Value::Int(number),
        }),
        Give::Assign(letter, parts, constant) => Ok(LiftStep::Assign {
            name: int(alloc, letter)?,
            form: form(alloc, parts)?,
            constant,
        }),
        Give::Choose(_, 0, _, _) => Err(AllocError),
        Give::Choose(letter, by, parts, bound) => Ok(LiftStep::Choose {
            name: int(alloc, letter)?,
            by,
            form: form(alloc, parts)?,
            bound,
            flag,
        }),
        Give::Bit(letter) => Ok(LiftStep::Bit {
            name: int(alloc, letter)?,
            flag,
        }),
        Give::Forget(letter) => Ok(LiftStep::Forget {
            name: int(alloc, letter)?,
        }),
    }
}

/// The list of two steps.
fn steps(alloc: Global, gives: [Give; 2]) -> Result<Items<LiftStep>, AllocError>
    ensures { IfOk result AreLawful }
{
    let [first, second] = gives;
    let one = step(alloc, first)?;
    let other = step(alloc, second)?;
    let mut steps = Items::new(alloc);
    steps.push(one)?;
    steps.push(other)?;
    Ok(steps)
}

/// The converter with these steps for its one subgoal.
fn converter(alloc: Global, gives: [Give; 2]) -> Result<ModelConv, AllocError>
    ensures { IfOk result (λ conv. length conv ≡ 1) }
{
    let all = steps(alloc, gives)?;
    let mut lists = Items::new(alloc);
    lists.push(all)?;
    Ok(ModelConv::of(lists))
}

/// The model with the values of p, y and z.
fn model(alloc: Global, values: (bool, i128, i128)) -> Result<Model, AllocError> {
    let mut model = Model::new(alloc);
    model.set(named(alloc, b"p", Sort::Bool)?, Value::Bool(values.0))?;
    model.set(int(alloc, b'y')?, Value::Int(values.1))?;
    model.set(int(alloc, b'z')?, Value::Int(values.2))?;
    Ok(model)
}

/// The numbers of x and y, or the letter of the name at which the steps pass 128 bits.
type Found = Result<(i128, i128), u8>;

/// Whether this is found.
fn is_found(
    alloc: Global,
    lifted: Result<Model, LiftError>,
    wanted: Found,
) -> Result<bool, AllocError> {
    match (lifted, wanted) {
        (Ok(model), Ok((a, b))) => {
            let x = int(alloc, b'x')?;
            let y = int(alloc, b'y')?;
            Ok(model.get(&x) == Value::Int(a) && model.get(&y) == Value::Int(b))
        }
        (Err(LiftError::Wide { name }), Err(letter)) => Ok(name.text() == [letter].as_slice()),
        _ => Ok(false),
    }
}

/// Two steps, of which the second is run first, the values of p, y and z before, and what is found.
type Row = ([Give; 2], (bool, i128, i128), Found);

/// A form without a name that counts.
const NONE: Form = [(0, b'y'), (0, b'y')];

/// The form 2 y + z.
const TWICE: Form = [(2, b'y'), (1, b'z')];

/// The greatest and the least number of 128 bits.
const MOST: i128 = i128::MAX;

const LEAST: i128 = i128::MIN;

/// No step that matters.
const IDLE: Give = Give::Forget(b'u');

/// What is lifted by the steps of a row.
fn is_right(alloc: Global, row: Row) -> Result<bool, AllocError> {
    let (gives, values, wanted) = row;
    let before = model(alloc, values)?;
    let conv = converter(alloc, gives)?;
    let after = conv.lift(0, before);
    is_found(alloc, after, wanted)
}

const ROWS: [Row; 20] = [
    // x is y + 1, and y is 2
    (
        [
            Give::Assign(b'x', [(1, b'y'), (0, b'y')], 1),
            Give::Assign(b'y', NONE, 2),
        ],
        (false, 0, 0),
        Ok((3, 2)),
    ),
    // y moved from a low bound of 2 to one of 0
    (
        [
            Give::Assign(b'x', [(1, b'y'), (0, b'y')], 1),
            Give::Assign(b'y', [(1, b'z'), (0, b'y')], 2),
        ],
        (false, 9, 0),
        Ok((3, 2)),
    ),
    // y is 2^127 - 1, and x is y + 1
    (
        [
            Give::Assign(b'x', [(1, b'y'), (0, b'y')], 1),
            Give::Assign(b'y', NONE, MOST),
        ],
        (false, 0, 0),
        Err(b'x'),
    ),
    // a prefix of the sum, and not the whole
    (
        [Give::Assign(b'x', [(1, b'y'), (1, b'z')], -1), IDLE],
        (false, MOST, 1),
        Err(b'x'),
    ),
    (
        [Give::Assign(b'x', [(1, b'y'), (1, b'z')], 1), IDLE],
        (false, MOST, -1),
        Ok((MOST, MOST)),
    ),
    // a product
    (
        [Give::Assign(b'x', [(2, b'y'), (-1, b'y')], 0), IDLE],
        (false, MOST, 0),
        Err(b'x'),
    ),
    // of two, the step that is run first
    (
        [
            Give::Assign(b'x', [(2, b'z'), (0, b'z')], 0),
            Give::Assign(b'y', [(2, b'z'), (0, b'z')], 0),
        ],
        (false, 0, MOST),
        Err(b'y'),
    ),
    (
        [Give::Set(b'x', 5), Give::Set(b'x', 4)],
        (false, 1, 0),
        Ok((5, 1)),
    ),
    (
        [Give::Bit(b'x'), Give::Forget(b'y')],
        (true, 8, 0),
        Ok((1, 0)),
    ),
    (
        [Give::Bit(b'x'), Give::Forget(b'x')],
        (false, 8, 0),
        Ok((0, 8)),
    ),
    // q is 9
    (
        [Give::Choose(b'x', 3, TWICE, 7), IDLE],
        (true, -1, 0),
        Ok((3, -1)),
    ),
    (
        [Give::Choose(b'x', 3, TWICE, 7), IDLE],
        (false, -1, 0),
        Ok((4, -1)),
    ),
    // q is -5
    (
        [Give::Choose(b'x', 3, TWICE, 7), IDLE],
        (true, 6, 0),
        Ok((-2, 6)),
    ),
    (
        [Give::Choose(b'x', 3, TWICE, 7), IDLE],
        (false, 6, 0),
        Ok((-1, 6)),
    ),
    (
        [Give::Choose(b'x', -3, TWICE, 7), IDLE],
        (true, 6, 0),
        Ok((2, 6)),
    ),
    (
        [Give::Choose(b'x', -3, TWICE, 7), IDLE],
        (false, 6, 0),
        Ok((1, 6)),
    ),
    // q is 5
    (
        [Give::Choose(b'x', -3, TWICE, 7), IDLE],
        (true, 0, 2),
        Ok((-1, 0)),
    ),
    (
        [Give::Choose(b'x', -3, TWICE, 7), IDLE],
        (false, 0, 2),
        Ok((-2, 0)),
    ),
    // the number, and q
    (
        [Give::Choose(b'x', -1, NONE, LEAST), IDLE],
        (true, 0, 0),
        Err(b'x'),
    ),
    (
        [Give::Choose(b'x', 1, [(1, b'y'), (0, b'y')], LEAST), IDLE],
        (true, 1, 0),
        Err(b'x'),
    ),
];

#[test]
fn steps_give_values(rt: HostRuntime) -> Result<(), Fail> {
    for row in ROWS {
        assert!(rt; is_right(rt.alloc(), row)?);
    }
    Ok(())
}

/// A converter of two subgoals: x is y + 1, and y is 2 in the first, 5 in the second.
fn joined(rt: &impl Abort, alloc: Global) -> Result<ModelConv, AllocError> {
    let two = steps(alloc, [Give::Assign(b'y', NONE, 2), IDLE])?;
    let five = steps(alloc, [Give::Assign(b'y', NONE, 5), IDLE])?;
    let mut lists = Items::new(alloc);
    lists.push(two)?;
    lists.push(five)?;
    let first = converter(alloc, [Give::Assign(b'x', [(1, b'y'), (0, b'y')], 1), IDLE])?;
    let inner = ModelConv::of(lists);
    let mut rest = Vec::new(alloc);
    rest.push(inner).expect(rt, "no memory");
    first.then_each(alloc, rest)
}

#[test]
fn converters_are_put_together(rt: HostRuntime) -> Result<(), Fail> {
    let alloc = rt.alloc();
    let id = ModelConv::id(alloc)?;
    let goals = id.subgoals();
    id.discard(Discarded::Undecided);
    let before = model(alloc, (false, 0, 0))?;
    let conv = joined(&rt, alloc)?;
    assert!(rt; conv.subgoals() == 2);
    let steps = conv.steps(alloc, 1).expect(&rt, "no memory");
    let after = conv.lift(1, before);
    assert!(rt; goals == 1 && steps.len() == 4);
    assert!(rt; is_found(alloc, after, Ok((6, 5)))?);
    Ok(())
}
