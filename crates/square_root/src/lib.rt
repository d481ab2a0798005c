// The square root, rounded once to the nearest binary64. A guess in floating point is tested, and put right, in whole numbers, so nothing rests on how good it is.
// The ranges that the functions ask are of other numbers each time, the bits of a double, its digits, half of a square: a type for each would be made and taken apart at every step.
#![tactic(auto)]

ghost use Rattle.std.specs.Prelude.{◌≡◌, ◌+◌, ◌-◌, ◌*◌, ◌%◌, ◌^◌, ◌<◌, ◌≤◌, true};
ghost use Rattle.square_root.specs.Root.{RootAnswer};
ghost use Rattle.square_root.specs.RootSteps.{Squared, Nearest, Past, PatternOf, ValueOf, Normal, UnitsOf, weight};

// q * q, as whole * 2^52 + rest.
#[derive(Clone, Copy)]
struct Parts {
    whole: u64,
    rest: u64,
}

// A number of 53 digits, and how often it was doubled to get there.
#[derive(Clone, Copy)]
struct Scaled {
    digits: u64,
    doubled: u64,
}

// digits * 2^exponent
#[derive(Clone, Copy)]
struct Unpacked {
    digits: u64,
    exponent: u64,
}

// A cubic close to the root on each of the 32 stretches of equal exponent and first four digits from 0.5 up to 2: its four coefficients.
static CUBICS: [[f64; 4]; 32] = [
    [
        0.22435317670766,
        1.30578731650906,
        -0.84431334060651,
        0.32750627518517,
    ],
    [
        0.23105676658956,
        1.26790824197064,
        -0.77295699022868,
        0.28269295411847,
    ],
    [
        0.23757101954040,
        1.23314631864074,
        -0.71111583957620,
        0.24601662850320,
    ],
    [
        0.24391114453446,
        1.20109608265847,
        -0.65710343572776,
        0.21567180819004,
    ],
    [
        0.25009041515753,
        1.17142228211330,
        -0.60959911547012,
        0.19031953183460,
    ],
    [
        0.25612049812011,
        1.14384497686771,
        -0.56755549200976,
        0.16895132037201,
    ],
    [
        0.26201171331439,
        1.11812833024026,
        -0.53013237859553,
        0.15079693369500,
    ],
    [
        0.26777324209606,
        1.09407205779474,
        -0.49664879903002,
        0.13526060715105,
    ],
    [
        0.27341329586699,
        1.07150481937179,
        -0.46654760328151,
        0.12187619789394,
    ],
    [
        0.27893925383940,
        1.05027905306122,
        -0.43936901624794,
        0.11027512803801,
    ],
    [
        0.28435777660378,
        1.03026689336661,
        -0.41473061469961,
        0.10016313903853,
    ],
    [
        0.28967490050341,
        1.01135691448235,
        -0.39231199483012,
        0.09130320986812,
    ],
    [
        0.29489611663921,
        0.99345150851816,
        -0.37184290663212,
        0.08350285013926,
    ],
    [
        0.30002643745941,
        0.97646475735369,
        -0.35309398101121,
        0.07660454034111,
    ],
    [
        0.30507045323939,
        0.96032069190125,
        -0.33586941719738,
        0.07047846414354,
    ],
    [
        0.31003238026763,
        0.94495185808786,
        -0.32000116734688,
        0.06501692929558,
    ],
    [
        0.31728330526146,
        0.92333106629094,
        -0.29850984429457,
        0.05789547701614,
    ],
    [
        0.32676361298902,
        0.89654651581976,
        -0.27328156467812,
        0.04997352621271,
    ],
    [
        0.33597615786084,
        0.87196612410610,
        -0.25141741618675,
        0.04349000657482,
    ],
    [
        0.34494244861458,
        0.84930318490441,
        -0.23232114767204,
        0.03812574952049,
    ],
    [
        0.35368125693530,
        0.82832063931533,
        -0.21552583417712,
        0.03364405788812,
    ],
    [
        0.36220908204321,
        0.80882053976933,
        -0.20066116854988,
        0.02986665608137,
    ],
    [
        0.37054051846983,
        0.79063612454968,
        -0.18743009991573,
        0.02665738359947,
    ],
    [
        0.37868855061286,
        0.77362577117338,
        -0.17559186683114,
        0.02391092313598,
    ],
    [
        0.38666479114822,
        0.75766832385186,
        -0.16494948701334,
        0.02154487149901,
    ],
    [
        0.39447967585791,
        0.74265944055777,
        -0.15534040541609,
        0.01949407270797,
    ],
    [
        0.40214262423933,
        0.72850870673153,
        -0.14662941500988,
        0.01770650870977,
    ],
    [
        0.40966217297100,
        0.71513733243037,
        -0.13870323594260,
        0.01614027971046,
    ],
    [
        0.41704608764233,
        0.70247629845320,
        -0.13146632040785,
        0.01476135789547,
    ],
    [
        0.42430145692558,
        0.69046485151447,
        -0.12483757418459,
        0.01354189748622,
    ],
    [
        0.43143477245045,
        0.67904927335713,
        -0.11874777124672,
        0.01245894998088,
    ],
    [
        0.43845199694929,
        0.66818186674875,
        -0.11313749770929,
        0.01149347789921,
    ],
];

// A number of few digits near the roots of each stretch, so that its square is exact.
static NEAR: [f64; 32] = [
    0.7177734375,
    0.7392578125,
    0.7607421875,
    0.7802734375,
    0.80078125,
    0.8193359375,
    0.8388671875,
    0.857421875,
    0.875,
    0.892578125,
    0.91015625,
    0.9267578125,
    0.943359375,
    0.9599609375,
    0.9765625,
    0.9921875,
    1.015625,
    1.044921875,
    1.076171875,
    1.103515625,
    1.1328125,
    1.16015625,
    1.185546875,
    1.212890625,
    1.23828125,
    1.26171875,
    1.287109375,
    1.310546875,
    1.333984375,
    1.357421875,
    1.380859375,
    1.40234375,
];

// The root of the value with the pattern b, near enough: a cubic for the digits, then a step of Newton's from it. What is left of the argument is
// taken in two parts that lose nothing to speak of, so that the sum is nearly always the root itself.
fn estimate(b: u64) -> f64
    requires { b < 0x7ff0_0000_0000_0000 }
{
    let x = f64::from_bits(b % 9007199254740992 + 0x3fe0_0000_0000_0000);
    let scale = f64::from_bits((b / 9007199254740992 + 512) * 4503599627370496);
    let i = (b / 281474976710656 % 32) as usize;
    let c = &CUBICS[i];
    let s = (c[0] + c[1] * x) + x * x * (c[2] + c[3] * x);
    let t = NEAR[i];
    let left = (x - t * t) - (s + t) * (s - t);
    scale * s + left * (0.5 * scale / s)
}

// q * q, from digits of 26 bits.
fn square(q: u64) -> Parts
    requires { q < 2 ^ 53 }
    ensures { Squared q result.whole result.rest }
{
    let high = q / 67108864;
    let low = q % 67108864;
    let cross = high * low;
    Parts {
        whole: high * high + cross / 33554432,
        rest: cross % 33554432 * 134217728 + low * low,
    }
}

// The nearest whole number to the root of a * 2^52, by bisection: the larger of 53 digits or fewer with p * p - p below it.
fn bisect(a: u64) -> u64
    requires { (2 ^ 52 ≤ a) × (a + 2 ≤ 2 ^ 54) }
    ensures { Nearest (a * 2 ^ 52) result }
{
    let mut least: u64 = 0;
    let mut end: u64 = 9007199254740992;
    // A bisection counts no index: it goes on until the two ends are neighbours.
    while 1 < end - least {
        let p = least + (end - least) / 2;
        let s = square(p);
        if s.whole + (s.rest + 9007199254740992 - p) / 4503599627370496 < a + 2 {
            least = p;
        } else {
            end = p;
        }
    }
    least
}

// 1 where d is past the limit, else 0.
fn past(d: u64, limit: u64) -> u64
    ensures { Past d limit result }
{
    u64::from(limit < d)
}

// The nearest whole number to the root of a * 2^52: q or a neighbour of it, where the guess q is that good.
fn settle(a: u64, q: u64) -> u64
    requires { (2 ^ 52 ≤ a) × (a + 2 ≤ 2 ^ 54) × (2 ^ 52 ≤ q) × (q < 2 ^ 53) }
    ensures { Nearest (a * 2 ^ 52) result }
{
    let s = square(q);
    let t = (a + 4).wrapping_sub(s.whole);
    if t < 16 {
        // a * 2^52 - q * q, moved up by 2^54 + 3 * q so that it stays above 0
        let d = t * 4503599627370496 + 3 * q - s.rest;
        if d.wrapping_sub(18014398509481987) < 6 * q {
            return q - 1 + past(d, 18014398509481984 + 2 * q) + past(d, 18014398509481984 + 4 * q);
        }
    }
    bisect(a)
}

// The same from a guess at the root, of which only the digits count.
fn correct(a: u64, guess: f64) -> u64
    requires { (2 ^ 52 ≤ a) × (a + 2 ≤ 2 ^ 54) }
    ensures { Nearest (a * 2 ^ 52) result }
{
    if guess > 0.0 {
        settle(a, f64::to_bits(guess) % 4503599627370496 + 4503599627370496)
    } else {
        bisect(a)
    }
}

// t doubled until it has 53 digits.
fn normalize(t: u64) -> Scaled
    requires { (0 < t) × (t < 2 ^ 52) }
    ensures { Normal t result.digits result.doubled }
{
    let doubled = t.leading_zeros() - 11;
    Scaled {
        digits: t << doubled,
        doubled: u64::from(doubled),
    }
}

// The value with the pattern b, which is finite and above zero, in units of 2^-2148.
fn unpack(b: u64) -> Unpacked
    requires { (0 < b) × (b < 0x7ff0_0000_0000_0000) }
    ensures { UnitsOf b result.digits result.exponent }
{
    let field = b / 4503599627370496;
    let t = b % 4503599627370496;
    if field == 0 {
        let s = normalize(t);
        Unpacked {
            digits: s.digits,
            exponent: 1074 - s.doubled,
        }
    } else {
        Unpacked {
            digits: 4503599627370496 + t,
            exponent: field + 1073,
        }
    }
}

// The pattern of the root of the value with the pattern b, which is finite and above zero.
fn root_bits(b: u64) -> u64
    requires { (0 < b) × (b < 0x7ff0_0000_0000_0000) }
    ensures { PatternOf (weight b) result }
{
    let x = unpack(b);
    let m = x.digits;
    let e = x.exponent;
    let odd = e % 2;
    let q = correct(m * (1 + odd), estimate(m + (1022 - odd) * 4503599627370496));
    (e - 52) / 2 * 4503599627370496 + q
}

// Whether q has 53 digits and is the whole number nearest the root of a * 2^52. The square is taken off by digits of 26 bits, the highest first.
fn is_nearest(a: u64, q: u64) -> bool
    requires { (2 ^ 52 ≤ a) × (a + 2 ≤ 2 ^ 54) }
    ensures { result ≡ true → Nearest (a * 2 ^ 52) q }
{
    if q < 4503599627370496 {
        return false;
    }
    if 9007199254740991 < q {
        return false;
    }
    let high = q / 67108864;
    let low = q % 67108864;
    let t = a.wrapping_sub(high * high);
    if t < 1073741824 {
        // moved up by 2^28 so that it stays above 0
        let u = (t * 67108864 + 268435456).wrapping_sub(2 * (high * low));
        if u < 1073741824 {
            (u * 67108864 + q).wrapping_sub(18014398509481985 + low * low) < 2 * q
        } else {
            false
        }
    } else {
        false
    }
}

// Whether r is the pattern of the root of the value with the pattern b, which is normal.
fn is_root(b: u64, r: u64) -> bool
    requires { (2 ^ 52 ≤ b) × (b < 0x7ff0_0000_0000_0000) }
    ensures { result ≡ true → PatternOf (weight b) r }
{
    let x = unpack(b);
    let m = x.digits;
    let e = x.exponent;
    let below = (e - 52) / 2 * 4503599627370496;
    if r < below {
        return false;
    }
    is_nearest(m * (1 + e % 2), r - below)
}

// The root of the value with the pattern b, which is finite and above zero. The estimate is taken where it is the root, and nothing waits for that test.
fn finite_root(b: u64) -> f64
    requires { (0 < b) × (b < 0x7ff0_0000_0000_0000) }
    ensures { ValueOf (weight b) result }
{
    if 4503599627370496 <= b {
        let v = estimate(b);
        if v > 0.0 {
            if is_root(b, f64::to_bits(v)) {
                return v;
            }
        }
        return f64::from_bits(root_bits(b));
    }
    f64::from_bits(root_bits(b))
}

// The square root of x, rounded once; refused for a NaN and below zero.
pub fn root(x: f64) -> Option<f64>
    ensures { RootAnswer x result }
{
    if x > 0.0 {
        if x < f64::INFINITY {
            Some(finite_root(f64::to_bits(x)))
        } else {
            Some(x)
        }
    } else if x == 0.0 {
        Some(x)
    } else {
        None
    }
}
