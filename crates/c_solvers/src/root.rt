// The square root for C programs.
ghost use Rattle.c_solvers.specs.Boundary.{RootCall};

// The square root of x into out.
pub fn square_root(x: f64, out: &mut f64) -> u32
    ensures { RootCall x result out.old out.new }
{
    match square_root::root(x) {
        Some(v) => {
            *out = v;
            0
        }
        None => 9,
    }
}
