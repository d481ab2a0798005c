// Checks of covariances, and the squared distance. Each answer is equal bit for bit to the definition of any size in specs/.
ghost use Rattle.std.specs.Prelude.{◌≡◌};
ghost use Rattle.number.specs.Reply.{and_then};
ghost use Rattle.cholesky.specs.Factor.{reply_of_factor};
ghost use Rattle.math.specs.Refusing.{number_of};
ghost use Rattle.cholesky.specs.Definite.{reply_of_found};
ghost use Rattle.math.specs.Linalg.{entries_checked, entries_reply, validated, distance_reply, distance_by, squared_distance, reply_of_validity, reply_of_distance};

// Why a matrix or a result is refused.
#[derive(Clone, Copy)]
pub enum Refusal {
    NonFiniteValue,
    NotSymmetric,
    NotPositiveDefinite,
    NonFiniteResult,
}

// 01's number of a refusal.
impl From<Refusal> for u32 {
    ghost from_gives = { λ why number. number ≡ number_of why };

    fn from(why: Refusal) -> u32 {
        match why {
            Refusal::NonFiniteValue => 5,
            Refusal::NotSymmetric => 6,
            Refusal::NotPositiveDefinite => 7,
            Refusal::NonFiniteResult => 9,
        }
    }
}

// A squared distance, where it is finite: +0 unless it is above 0.
fn distance_of(d: f64) -> Result<f64, Refusal>
    ensures { reply_of_distance result ≡ distance_reply d }
{
    if number::float::is_finite(d) {
        if d > 0.0 { Ok(d) } else { Ok(0.0) }
    } else {
        Err(Refusal::NonFiniteResult)
    }
}

// The squared distance of the innovation u by the factor of its covariance.
fn distance_by<const N: usize>(l: cholesky::Lower<N>, u: [f64; N]) -> Result<f64, Refusal>
    ensures { reply_of_distance result ≡ distance_by N l.entry.columns u.entry }
{
    let x = solving::solve(l, u);
    if finite::is_finite_vector(x) {
        distance_of(product::dot(u, x))
    } else {
        Err(Refusal::NonFiniteResult)
    }
}

// The same by what the factor's search answered.
pub fn distance_by_factor<const N: usize>(
    u: [f64; N],
    factor: Option<cholesky::Lower<N>>,
) -> Result<f64, Refusal>
    ensures { reply_of_distance result ≡ and_then (reply_of_factor factor.entry) (λ l. distance_by N l u.entry) }
{
    let l = factor.ok_or(Refusal::NotPositiveDefinite)?;
    distance_by(l, u)
}

// The squared distance of the innovation u with the covariance s.
pub fn squared_mahalanobis<const N: usize>(u: [f64; N], s: [[f64; N]; N]) -> Result<f64, Refusal>
    ensures { reply_of_distance result ≡ squared_distance N u.entry s.entry }
{
    distance_by_factor(u, cholesky::cholesky(s))
}

// Whether the entries of a may be a covariance's: finite, then symmetric.
#[tactic(auto, unfolding(crate::specs::Linalg::entries_checked))]
fn check_entries<const N: usize>(a: [[f64; N]; N]) -> Result<(), Refusal>
    ensures { reply_of_validity result ≡ entries_reply N a.entry }
{
    if finite::is_finite_matrix(a) {
        if symmetry::is_symmetric(a) {
            Ok(())
        } else {
            Err(Refusal::NotSymmetric)
        }
    } else {
        Err(Refusal::NonFiniteValue)
    }
}

// What is answered where the entries may be a covariance's, and it is known whether there is a factor.
fn decided(definite: bool) -> Result<(), Refusal>
    ensures { reply_of_validity result ≡ reply_of_found definite }
{
    if definite {
        Ok(())
    } else {
        Err(Refusal::NotPositiveDefinite)
    }
}

// Whether a may be a covariance, finite, symmetric and with a factor in this order, where it is known whether it has one.
pub fn validity<const N: usize>(a: [[f64; N]; N], definite: bool) -> Result<(), Refusal>
    ensures { reply_of_validity result ≡ entries_checked N a.entry (reply_of_found definite) }
{
    check_entries(a)?;
    decided(definite)
}

// Whether a may be a covariance. The factor is asked for last, so that a matrix refused for its entries costs no factor.
pub fn validate_covariance<const N: usize>(a: [[f64; N]; N]) -> Result<(), Refusal>
    ensures { reply_of_validity result ≡ validated N a.entry }
{
    check_entries(a)?;
    decided(cholesky::has_factor(a))
}
