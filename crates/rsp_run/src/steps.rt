// A case's steps, one after the other, each from the bytes that the one before it left.
ghost use Rattle.std.specs.Prelude.{◌≤◌, length};
ghost use Rattle.rsp_run.specs.Walk.{StepsFrom, Leaves};

use crate::field;
use crate::field::Field;
use reasons::Reason;
use rsp_line::name::Name;
use table::answers::Served;

const ENTROPY_INPUT_RESEED: u8 = Name::EntropyInputReseed as u8;

const ENTROPY_INPUT_PR: u8 = Name::EntropyInputPR as u8;

// What a step's call was answered, and the bytes of the fields behind it, served or refused.
#[derive(Clone, Copy)]
pub struct Stepped<'a> {
    pub outcome: Result<Served, Reason>,
    pub rest: &'a [u8],
}

// EntropyInputReseed and the field behind it are a reseed, a field with EntropyInputPR behind it is a fresh draw, any other a draw.
fn run_step<'a>(table: &mut [u8], first: Field<'a>, handle: u64, out: &mut [u8]) -> Stepped<'a>
    ensures further { length result.rest.now ≤ length first.entry.rest.now }
    ensures is { StepsFrom first.entry handle table.old out.old result table.new out.new }
{
    match field::first_field(first.rest) {
        Some(second) if first.name == ENTROPY_INPUT_RESEED => {
            let outcome = calls::reseed(table, handle, first.value, second.value);
            Stepped {
                outcome,
                rest: second.rest,
            }
        }
        Some(second) if second.name == ENTROPY_INPUT_PR => {
            let outcome = calls::fresh_draw(table, handle, 0, second.value, first.value, out);
            Stepped {
                outcome,
                rest: second.rest,
            }
        }
        _ => {
            let outcome = calls::draw(table, handle, 0, first.value, out);
            Stepped {
                outcome,
                rest: first.rest,
            }
        }
    }
}

// The steps. A refused one ends the walk.
pub fn run_steps(table: &mut [u8], fields: &[u8], handle: u64, out: &mut [u8]) -> Result<(), Reason>
    ensures { Leaves fields.now handle table.old out.old result out.new }
{
    let mut left = fields;
    while let Some(first) = field::first_field(left) {
        let step = run_step(table, first, handle, out);
        step.outcome?;
        left = step.rest;
    }
    Ok(())
}
