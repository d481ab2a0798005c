// The Cholesky factor of one matrix of three rows beside the test of another. The two do not wait for each other, so the roots of the one are worked out while the other's are on their way.
#![tactic(auto)]

ghost use Rattle.std.specs.Prelude.{◌≡◌};
ghost use Rattle.factors.specs.Factors.{Answers};

// The factor of the one, and whether the other has one.
#[derive(Clone, Copy)]
pub struct FactorAndTest {
    pub factor: Option<cholesky::Lower<3>>,
    pub definite: bool,
}

// The factor of s, and whether r has one: the steps of both by turns. Loops over rows of any number, tried, made a squared distance take 1.43 of its time.
pub fn factor_and_test(s: [[f64; 3]; 3], r: [[f64; 3]; 3]) -> FactorAndTest
    ensures { Answers s r result }
{
    let m00 = cholesky::root_or_zero(r[0][0]);
    let l00 = cholesky::root_or_zero(s[0][0]);
    let m10 = r[1][0] / m00;
    let m20 = r[2][0] / m00;
    let l10 = s[1][0] / l00;
    let l20 = s[2][0] / l00;
    let q = r[1][1] - m10 * m10;
    let p = s[1][1] - l10 * l10;
    let m11 = cholesky::root_or_zero(q);
    let l11 = cholesky::root_or_zero(p);
    let m21 = (r[2][1] - m20 * m10) / m11;
    let l21 = (s[2][1] - l20 * l10) / l11;
    let t = s[2][2] - l20 * l20 - l21 * l21;
    let l22 = cholesky::root_or_zero(t);
    let definite = (r[0][0] > 0.0) & (q > 0.0) & (r[2][2] - m20 * m20 - m21 * m21 > 0.0);
    if (s[0][0] > 0.0) & (p > 0.0) & (t > 0.0) {
        let columns = [[l00, l10, l20], [0.0, l11, l21], [0.0, 0.0, l22]];
        let factor = Some(cholesky::Lower { columns });
        FactorAndTest { factor, definite }
    } else {
        FactorAndTest {
            factor: None,
            definite,
        }
    }
}
