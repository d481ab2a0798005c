// A matrix as rows from one flat array, and back. Every number is equal bit for bit to the definition of any size in matrix/specs/Flat.antt.
// The flat array's length is a size of its own, since no type says N * P; a clause says it in its place.
#![tactic(auto)]

ghost use Rattle.std.specs.Prelude.{◌≡◌, ◌<◌, ◌≤◌, ◌+◌, ◌*◌};
ghost use Rattle.matrix.specs.Matrix.{item};
ghost use Rattle.matrix.specs.Flat.{row_of, rows_of, flat_of};

use std::array::from_fn;

// Row i of the matrix that v holds.
fn row<const P: usize, const L: usize>(v: [f64; L], i: usize) -> [f64; P]
    requires { i * P + P ≤ L }
    ensures { result ≡ row_of P v.entry i }
{
    from_fn(
        |j| -> f64
            requires { i * P + j < L }
            ensures { result ≡ item v (i * P + j) }
        { v[i * P + j] },
    )
}

// The matrix of N rows that v holds, row after row.
fn rows<const N: usize, const P: usize, const L: usize>(v: [f64; L]) -> [[f64; P]; N]
    requires { L ≡ N * P }
    ensures { result ≡ rows_of N P v.entry }
{
    from_fn(
        |i| -> [f64; P]
            requires { i * P + P ≤ L }
            ensures { result ≡ row_of P v i }
        { row(v, i) },
    )
}

// The rows of a, one after the other.
fn flat<const N: usize, const P: usize, const L: usize>(a: [[f64; P]; N]) -> [f64; L]
    requires { L ≡ N * P }
    ensures { result ≡ flat_of N P a.entry }
{
    let mut v = [0.0; L];
    v.copy_from_slice(a.as_flattened());
    v
}

// The same of three rows and of six. They have names of their own since they ask nothing, where the function of any size asks for the product.
#[tactic(auto, unfolding(matrix::specs::Flat::rows_of))]
pub fn rows3(v: [f64; 9]) -> [[f64; 3]; 3]
    ensures { result ≡ rows_of 3 3 v }
{
    rows::<3, 3, 9>(v)
}

pub fn rows6(v: [f64; 36]) -> [[f64; 6]; 6]
    ensures { result ≡ rows_of 6 6 v }
{
    rows::<6, 6, 36>(v)
}

#[tactic(auto, unfolding(matrix::specs::Flat::flat_of))]
pub fn flat3(a: [[f64; 3]; 3]) -> [f64; 9]
    ensures { result ≡ flat_of 3 3 a }
{
    flat::<3, 3, 9>(a)
}

#[tactic(auto, unfolding(matrix::specs::Flat::flat_of))]
pub fn flat6(a: [[f64; 6]; 6]) -> [f64; 36]
    ensures { result ≡ flat_of 6 6 a }
{
    flat::<6, 6, 36>(a)
}
