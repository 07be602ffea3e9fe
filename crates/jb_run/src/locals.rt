// The locals of a frame, which are lists that grow where a local past the end is written.
ghost use Rattle.std.specs.Prelude.{◌≡◌, IfOk};
ghost use Rattle.jb_run.specs.Locals as specs;

use jv_base::{List, Mem};

/// What a local holds, where it holds anything.
pub fn local_at<T: Copy>(locals: &[Option<T>], index: usize) -> Option<T>
    ensures { result ≡ specs.local_at locals.now index }
{
    match locals.get(index) {
        Some(local) => *local,
        None => None,
    }
}

/// The locals where one of them is written.
pub fn with_local<T: Copy>(locals: List<Option<T>>, index: usize, value: T) -> Mem<List<Option<T>>>
    ensures { IfOk result (λ new. new ≡ specs.with_local locals index value) }
{
    let mut locals = locals.into_vec();
    'room: while locals.len() <= index {
        locals.push(None)?;
    }
    locals[index] = Some(value);
    Ok(List::from_vec(locals))
}
