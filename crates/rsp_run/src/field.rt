// The fields of a case, read from the bytes that hold them.
ghost use Rattle.std.specs.Prelude.{◌<◌, length, IfSome};
ghost use Rattle.rsp_run.specs.Places.{Inside, Reads};

// A field's name and value, and the bytes of the fields behind it. The name is a number, as in the definitions: any byte may stand there.
#[derive(Clone, Copy)]
pub struct Field<'a> {
    pub name: u8,
    pub value: &'a [u8],
    pub rest: &'a [u8],
}

// The first field: a name, the value's length in two bytes, and the value.
#[tactic(auto, using(crate::proofs::Fields::no_header, crate::proofs::Fields::no_value))]
pub fn first_field(s: &[u8]) -> Option<Field<'_>>
    ensures further { IfSome result (λ f. length f.rest.now < length s.now) }
    ensures inside { IfSome result (Inside s.now) }
    ensures is { Reads s.now result }
{
    let [name, high, low, behind @ ..] = s else {
        return None;
    };
    let length = u16::from_be_bytes([*high, *low]) as usize;
    let (value, rest) = behind.split_at_checked(length)?;
    Some(Field {
        name: *name,
        value,
        rest,
    })
}
