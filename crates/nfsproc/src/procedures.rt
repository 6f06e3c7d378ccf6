// made by tools/generate from crates/nfsproc/rfc/procedures.x
// The procedures by their numbers (RFC 1813, section 3): those whose arguments and results are known here.
ghost use Rattle.std.proofs.Math.Option.{some};
ghost use Rattle.xdr.specs.Meaning.Programs.{AnswersFor, AnswersBy};
ghost use Rattle.xdr.specs.Meaning.Views.{view};
ghost use Rattle.nfsproc.specs.Meaning.Procedures.{getattr_arguments, setattr_arguments, lookup_arguments, read_arguments, write_arguments, arguments_by_number, view_arguments, getattr_results, setattr_results, lookup_results, read_results, write_results, results_by_number, view_results};

use nfsdata::read::{READ3args, READ3res, read_read3args, read_read3res};
use nfsdata::write::{WRITE3args, WRITE3res, read_write3args, read_write3res};
use nfsfile::getattr::{GETATTR3args, GETATTR3res, read_getattr3args, read_getattr3res};
use nfsfile::lookup::{LOOKUP3args, LOOKUP3res, read_lookup3args, read_lookup3res};
use nfsfile::setattr::{SETATTR3args, SETATTR3res, read_setattr3args, read_setattr3res};
use xdr::{Refusal, Took};

#[derive(Clone, Copy)]
pub enum Arguments {
    GETATTR(GETATTR3args),
    SETATTR(SETATTR3args),
    LOOKUP(LOOKUP3args),
    READ(READ3args),
    WRITE(WRITE3args),
}

fn arguments_of_getattr(src: &[u8], at: usize) -> Result<Took<Arguments>, Refusal>
    ensures { AnswersFor getattr_arguments src.now at (some (view result)) }
{
    let v = read_getattr3args(src, at)?;
    Ok(Took {
        value: Arguments::GETATTR(v.value),
        next: v.next,
        plain: v.plain,
    })
}

fn arguments_of_setattr(src: &[u8], at: usize) -> Result<Took<Arguments>, Refusal>
    ensures { AnswersFor setattr_arguments src.now at (some (view result)) }
{
    let v = read_setattr3args(src, at)?;
    Ok(Took {
        value: Arguments::SETATTR(v.value),
        next: v.next,
        plain: v.plain,
    })
}

fn arguments_of_lookup(src: &[u8], at: usize) -> Result<Took<Arguments>, Refusal>
    ensures { AnswersFor lookup_arguments src.now at (some (view result)) }
{
    let v = read_lookup3args(src, at)?;
    Ok(Took {
        value: Arguments::LOOKUP(v.value),
        next: v.next,
        plain: v.plain,
    })
}

fn arguments_of_read(src: &[u8], at: usize) -> Result<Took<Arguments>, Refusal>
    ensures { AnswersFor read_arguments src.now at (some (view result)) }
{
    let v = read_read3args(src, at)?;
    Ok(Took {
        value: Arguments::READ(v.value),
        next: v.next,
        plain: v.plain,
    })
}

fn arguments_of_write(src: &[u8], at: usize) -> Result<Took<Arguments>, Refusal>
    ensures { AnswersFor write_arguments src.now at (some (view result)) }
{
    let v = read_write3args(src, at)?;
    Ok(Took {
        value: Arguments::WRITE(v.value),
        next: v.next,
        plain: v.plain,
    })
}

// The arguments of a call, by the number of its procedure, from a place on; `None` if no procedure of this number is known here.
pub fn read_arguments(
    procedure: u32,
    src: &[u8],
    at: usize,
) -> Option<Result<Took<Arguments>, Refusal>>
    ensures { AnswersBy arguments_by_number procedure src.now at (view_arguments result) }
{
    match procedure {
        1 => Some(arguments_of_getattr(src, at)),
        2 => Some(arguments_of_setattr(src, at)),
        3 => Some(arguments_of_lookup(src, at)),
        6 => Some(arguments_of_read(src, at)),
        7 => Some(arguments_of_write(src, at)),
        _ => None,
    }
}

#[derive(Clone, Copy)]
pub enum Results {
    GETATTR(GETATTR3res),
    SETATTR(SETATTR3res),
    LOOKUP(LOOKUP3res),
    READ(READ3res),
    WRITE(WRITE3res),
}

fn results_of_getattr(src: &[u8], at: usize) -> Result<Took<Results>, Refusal>
    ensures { AnswersFor getattr_results src.now at (some (view result)) }
{
    let v = read_getattr3res(src, at)?;
    Ok(Took {
        value: Results::GETATTR(v.value),
        next: v.next,
        plain: v.plain,
    })
}

fn results_of_setattr(src: &[u8], at: usize) -> Result<Took<Results>, Refusal>
    ensures { AnswersFor setattr_results src.now at (some (view result)) }
{
    let v = read_setattr3res(src, at)?;
    Ok(Took {
        value: Results::SETATTR(v.value),
        next: v.next,
        plain: v.plain,
    })
}

fn results_of_lookup(src: &[u8], at: usize) -> Result<Took<Results>, Refusal>
    ensures { AnswersFor lookup_results src.now at (some (view result)) }
{
    let v = read_lookup3res(src, at)?;
    Ok(Took {
        value: Results::LOOKUP(v.value),
        next: v.next,
        plain: v.plain,
    })
}

fn results_of_read(src: &[u8], at: usize) -> Result<Took<Results>, Refusal>
    ensures { AnswersFor read_results src.now at (some (view result)) }
{
    let v = read_read3res(src, at)?;
    Ok(Took {
        value: Results::READ(v.value),
        next: v.next,
        plain: v.plain,
    })
}

fn results_of_write(src: &[u8], at: usize) -> Result<Took<Results>, Refusal>
    ensures { AnswersFor write_results src.now at (some (view result)) }
{
    let v = read_write3res(src, at)?;
    Ok(Took {
        value: Results::WRITE(v.value),
        next: v.next,
        plain: v.plain,
    })
}

// The results of a call, by the number of the call's procedure, from a place on; `None` if no procedure of this number is known here.
pub fn read_results(procedure: u32, src: &[u8], at: usize) -> Option<Result<Took<Results>, Refusal>>
    ensures { AnswersBy results_by_number procedure src.now at (view_results result) }
{
    match procedure {
        1 => Some(results_of_getattr(src, at)),
        2 => Some(results_of_setattr(src, at)),
        3 => Some(results_of_lookup(src, at)),
        6 => Some(results_of_read(src, at)),
        7 => Some(results_of_write(src, at)),
        _ => None,
    }
}
