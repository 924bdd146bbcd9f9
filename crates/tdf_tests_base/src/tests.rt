//! Casts of tables and of SystemC, each public function once on its happy path, and printed texts.

mod devices;
mod snapshots;
mod tables;
mod traces;

ghost use Rattle.std.specs.Prelude.{◌*◌, ◌≤◌, ◌^◌, IsTrue, unsigned_abs};

use std::test::Fail;
use tdf_base::{
    Code, Digits, Fault, LONGEST_NAME, Memory, Name, Path, Place, Resolution, TIME_END, TimeErr,
    all_limits, are_digits, cluster_number, is_number, is_short, power_of_ten, push_fault,
    push_number, push_word, read_int, read_time, read_time_at, row_number, split, value,
};
use tdf_fixed::{
    DecimalErr, Format, NumErr, Over, Quant, Raw, cast, cast_trn_wrap, push_bits, push_decimal,
    push_seconds, push_seconds_at, read_decimal, read_exact,
};

// Casts of the tables of IEEE 1666-2011's modes: ties on both sides of 0, the ends of a range, and rounding before overflow.
// A line is `signed wl iwl quant over num frac result`: `num / 2^frac` becomes `result / 2^(wl-iwl)`.
const TABLES: &str = "1 8 8 trn wrap -5 1 -3\n\
1 8 8 trn_zero wrap -5 1 -2\n\
1 8 8 rnd wrap -5 1 -2\n\
1 8 8 rnd_zero wrap -5 1 -2\n\
1 8 8 rnd_min_inf wrap -5 1 -3\n\
1 8 8 rnd_inf wrap -5 1 -3\n\
1 8 8 rnd_conv wrap -5 1 -2\n\
1 8 8 trn wrap 5 1 2\n\
1 8 8 trn_zero wrap 5 1 2\n\
1 8 8 rnd wrap 5 1 3\n\
1 8 8 rnd_zero wrap 5 1 2\n\
1 8 8 rnd_min_inf wrap 5 1 2\n\
1 8 8 rnd_inf wrap 5 1 3\n\
1 8 8 rnd_conv wrap 5 1 2\n\
1 8 8 trn wrap 128 0 -128\n\
1 8 8 trn sat 128 0 127\n\
1 8 8 trn sat_zero 128 0 0\n\
1 8 8 trn sat_sym 128 0 127\n\
1 8 8 trn sat_sym -128 0 -127\n\
1 4 4 rnd sat 255 5 7\n\
1 4 4 rnd wrap 255 5 -8\n\
0 8 8 trn wrap 256 0 0\n\
0 8 8 trn sat 256 0 255\n\
0 8 8 trn sat_zero 256 0 0\n\
0 8 8 trn sat_sym 256 0 255\n\
0 8 8 trn wrap -1 0 255\n\
0 8 8 trn sat -1 0 0\n\
0 8 8 trn sat_zero -1 0 0\n\
0 8 8 trn sat_sym -1 0 0\n";

// Casts computed by SystemC 2.3.4, its types sc_fix and sc_ufix over bit-exact inputs; lines as above.
const VECTORS: &str = "1 1 1 rnd sat_sym -3 2 0\n\
0 3 3 rnd sat 40 4 3\n\
0 4 4 rnd sat 31 2 8\n\
0 22 22 rnd sat 0 0 0\n\
0 12 12 rnd sat -8193 1 0\n\
0 3 1 rnd sat_sym 28 2 7\n\
0 4 3 rnd sat_sym 36 3 9\n\
0 1 1 rnd sat_sym 1 1 1\n\
0 23 16 rnd sat_sym -33554430 9 0\n\
0 2 0 rnd sat_zero 2 0 0\n\
0 2 2 rnd sat_zero 34 4 2\n\
0 47 0 rnd sat_zero -187754604035018814442689359 49 0\n\
0 51 51 rnd sat_zero 178770629398917 0 178770629398917\n\
0 4 1 rnd wrap -24 4 4\n\
0 3 3 rnd wrap -39 1 5\n\
0 56 30 rnd wrap -11 28 72057594037927933\n\
0 46 46 rnd wrap -3 2 70368744177663\n\
0 3 2 rnd_conv sat 4 2 2\n\
0 1 1 rnd_conv sat 7 2 1\n\
0 48 48 rnd_conv sat 173548314868295289601389494271 44 281474976710655\n\
0 38 0 rnd_conv sat 1438802870076865497784123393 85 274877906943\n\
0 2 0 rnd_conv sat_sym 15 0 3\n\
0 3 3 rnd_conv sat_sym -19 0 0\n\
0 4 4 rnd_conv sat_sym 88 1 15\n\
0 17 9 rnd_conv sat_sym -1 8 0\n\
0 3 2 rnd_conv sat_zero 40 1 0\n\
0 3 3 rnd_conv sat_zero -31 2 0\n\
0 9 8 rnd_conv sat_zero 32799 5 0\n\
0 38 14 rnd_conv sat_zero 3 25 2\n\
0 2 1 rnd_conv wrap 33 2 0\n\
0 2 1 rnd_conv wrap -14 3 0\n\
0 22 0 rnd_conv wrap 1 0 0\n\
0 17 17 rnd_conv wrap 524285 1 131070\n\
0 2 2 rnd_inf sat -9 1 0\n\
0 4 0 rnd_inf sat 38 1 15\n\
0 33 12 rnd_inf sat -2497169 6 0\n\
0 46 46 rnd_inf sat 2 0 2\n\
0 3 3 rnd_inf sat_sym 19 0 7\n\
0 4 0 rnd_inf sat_sym 23 0 15\n\
0 24 0 rnd_inf sat_sym -16777216 24 0\n\
0 18 10 rnd_inf sat_sym -9444678922543761981440 63 0\n\
0 3 3 rnd_inf sat_zero -21 4 0\n\
0 4 0 rnd_inf sat_zero 40 4 0\n\
0 10 9 rnd_inf sat_zero 228627 3 0\n\
0 1 0 rnd_inf sat_zero 1 2 1\n\
0 4 4 rnd_inf wrap -14 0 2\n\
0 4 1 rnd_inf wrap 28 3 12\n\
0 21 0 rnd_inf wrap 584253440 37 8915\n\
0 54 0 rnd_inf wrap 1279972318826608 56 319993079706652\n\
0 4 2 rnd_min_inf sat -18 1 0\n\
0 4 3 rnd_min_inf sat 34 4 4\n\
0 41 41 rnd_min_inf sat -9149819908982 2 0\n\
0 15 0 rnd_min_inf sat 18015772899016703 54 32767\n\
0 4 1 rnd_min_inf sat_sym 1 0 8\n\
0 4 4 rnd_min_inf sat_sym 26 1 13\n\
0 64 30 rnd_min_inf sat_sym 4835703278458516699081538 51 18446744073709551615\n\
0 62 0 rnd_min_inf sat_sym 1263808806912 84 301315\n\
0 3 1 rnd_min_inf sat_zero 9 2 0\n\
0 2 0 rnd_min_inf sat_zero -4 0 0\n\
0 57 0 rnd_min_inf sat_zero 1504636602764383156 57 0\n\
0 36 0 rnd_min_inf sat_zero 281474976706560 49 34359738367\n\
0 3 0 rnd_min_inf wrap 14 0 0\n\
0 4 4 rnd_min_inf wrap 39 1 3\n\
0 64 64 rnd_min_inf wrap 1 1 0\n\
0 42 42 rnd_min_inf wrap 32 6 0\n\
0 4 2 rnd_zero sat 23 3 11\n\
0 2 2 rnd_zero sat -6 1 0\n\
0 25 6 rnd_zero sat 5453300207 21 33554431\n\
0 31 25 rnd_zero sat -3 8 0\n\
0 4 2 rnd_zero sat_sym -34 1 0\n\
0 2 2 rnd_zero sat_sym 16 1 3\n\
0 31 21 rnd_zero sat_sym 1771754343096320 24 2147483647\n\
0 6 0 rnd_zero sat_sym 3800 6 63\n\
0 1 0 rnd_zero sat_zero 1 2 0\n\
0 4 0 rnd_zero sat_zero -35 0 0\n\
0 8 0 rnd_zero sat_zero 183 8 183\n\
0 36 24 rnd_zero sat_zero -694863955412885937586177 51 0\n\
0 4 2 rnd_zero wrap 31 0 12\n\
0 3 0 rnd_zero wrap 26 2 4\n\
0 30 30 rnd_zero wrap -128 8 0\n\
0 21 16 rnd_zero wrap -131072 1 0\n\
0 3 3 trn sat -25 0 0\n\
0 1 0 trn sat -27 4 0\n\
0 45 0 trn sat 40714633882145630858510337 86 18514871900218\n\
0 52 27 trn sat 2736484460483682 25 2736484460483682\n\
0 3 1 trn sat_sym 17 2 7\n\
0 2 0 trn sat_sym -1 4 0\n\
0 2 0 trn sat_sym -31 4 0\n\
0 59 5 trn sat_sym 18819972787939568937775 53 576460752303423487\n\
0 1 1 trn sat_zero -18 4 0\n\
0 3 0 trn sat_zero -4 2 0\n\
0 1 0 trn sat_zero 768 10 1\n\
0 25 15 trn sat_zero 89762857 12 22440714\n\
0 1 1 trn wrap 3 0 1\n\
0 4 3 trn wrap 22 1 6\n\
0 62 0 trn wrap -395417399265708182216 65 1301371294487744167\n\
0 64 19 trn wrap 0 46 0\n\
0 4 2 trn_zero sat 27 1 15\n\
0 3 0 trn_zero sat -6 1 0\n\
0 64 57 trn_zero sat -5192296858534827628741602561753089 54 0\n\
0 62 0 trn_zero sat 5 63 2\n\
0 4 3 trn_zero sat_sym -13 4 0\n\
0 4 1 trn_zero sat_sym 16 3 15\n\
0 23 23 trn_zero sat_sym -16777214 1 0\n\
0 6 0 trn_zero sat_sym 127 6 63\n\
0 4 0 trn_zero sat_zero 27 4 0\n\
0 3 1 trn_zero sat_zero -15 2 0\n\
0 31 0 trn_zero sat_zero 6457515382 33 1614378845\n\
0 46 34 trn_zero sat_zero 22962509045563 13 11481254522781\n\
0 1 0 trn_zero wrap 37 2 0\n\
0 4 1 trn_zero wrap 27 4 13\n\
0 29 0 trn_zero wrap 1874084671 31 468521167\n\
0 53 43 trn_zero wrap 24369401041764343811580139945922 11 4741990302097377\n\
1 4 2 rnd sat -38 0 -8\n\
1 3 0 rnd sat 14 3 3\n\
1 31 0 rnd sat 17373799930927405574295757258752 100 1073741823\n\
1 20 20 rnd sat 248323391386950883190251812422 2 524287\n\
1 3 0 rnd sat_sym -1 0 -3\n\
1 4 4 rnd sat_sym -18 1 -7\n\
1 37 37 rnd sat_sym -274877906943 2 -68719476735\n\
1 54 26 rnd sat_sym 58357020702563221633028775872304 28 9007199254740991\n\
1 2 1 rnd sat_zero -38 1 0\n\
1 1 1 rnd sat_zero -29 3 0\n\
1 50 0 rnd sat_zero -4503599627370493 51 0\n\
1 18 16 rnd sat_zero 0 2 0\n\
1 4 1 rnd wrap -30 1 -8\n\
1 1 0 rnd wrap -4 1 0\n\
1 9 8 rnd wrap 16051495375994880 40 14\n\
1 1 1 rnd wrap 399654386197910355715123 1 0\n\
1 4 1 rnd_conv sat -24 4 -8\n\
1 4 3 rnd_conv sat 4 3 1\n\
1 54 42 rnd_conv sat 840410621680559 12 840410621680559\n\
1 57 0 rnd_conv sat 9903520314283042267912470528 94 72057594037927935\n\
1 4 4 rnd_conv sat_sym -13 0 -7\n\
1 3 3 rnd_conv sat_sym -11 2 -3\n\
1 58 46 rnd_conv sat_sym 5396649 37 0\n\
1 53 25 rnd_conv sat_sym -147751730425616387510538641973824 35 -4503599627370495\n\
1 4 0 rnd_conv sat_zero 21 2 0\n\
1 3 1 rnd_conv sat_zero -21 0 0\n\
1 44 0 rnd_conv sat_zero 8053122719080820147291548532 30 0\n\
1 21 7 rnd_conv sat_zero 16777176 18 1048574\n\
1 4 2 rnd_conv wrap -16 1 0\n\
1 3 1 rnd_conv wrap -13 0 -4\n\
1 33 14 rnd_conv wrap -4611686016816775169 49 -4294967295\n\
1 54 0 rnd_conv wrap -90071992547409919 55 -9007199254740992\n\
1 3 0 rnd_inf sat -12 3 -4\n\
1 3 1 rnd_inf sat 39 4 3\n\
1 62 0 rnd_inf sat 716864695235698405 62 716864695235698405\n\
1 59 59 rnd_inf sat -81129638414606682118001470210048 48 -288230376151711744\n\
1 4 3 rnd_inf sat_sym -9 1 -7\n\
1 3 0 rnd_inf sat_sym -34 4 -3\n\
1 50 4 rnd_inf sat_sym 4194303 20 281474909601792\n\
1 26 17 rnd_inf sat_sym -4294967251 16 -33554431\n\
1 4 1 rnd_inf sat_zero 40 2 0\n\
1 3 3 rnd_inf sat_zero -24 3 -3\n\
1 23 23 rnd_inf sat_zero -9409034 2 -2352259\n\
1 53 0 rnd_inf sat_zero -4503599627370495 53 -4503599627370495\n\
1 4 2 rnd_inf wrap -3 3 -2\n\
1 3 3 rnd_inf wrap 4 1 2\n\
1 9 4 rnd_inf wrap 34690113847588018 7 -211\n\
1 53 10 rnd_inf wrap -2 45 -1\n\
1 1 0 rnd_min_inf sat -19 4 -1\n\
1 4 0 rnd_min_inf sat 40 1 7\n\
1 41 0 rnd_min_inf sat 4294967295 33 1099511627520\n\
1 56 3 rnd_min_inf sat 64890069813328 57 4055629363333\n\
1 3 3 rnd_min_inf sat_sym -27 0 -3\n\
1 1 1 rnd_min_inf sat_sym -21 3 0\n\
1 64 30 rnd_min_inf sat_sym 4 35 2\n\
1 32 14 rnd_min_inf sat_sym 427809520463 19 2147483647\n\
1 4 4 rnd_min_inf sat_zero 20 4 1\n\
1 1 0 rnd_min_inf sat_zero -28 0 0\n\
1 54 39 rnd_min_inf sat_zero 0 15 0\n\
1 18 13 rnd_min_inf sat_zero -4119616 5 0\n\
1 2 1 rnd_min_inf wrap -14 2 1\n\
1 2 0 rnd_min_inf wrap 13 1 -2\n\
1 12 12 rnd_min_inf wrap 3 1 1\n\
1 13 6 rnd_min_inf wrap -257 0 -128\n\
1 3 1 rnd_zero sat -38 0 -4\n\
1 4 0 rnd_zero sat 22 1 7\n\
1 61 61 rnd_zero sat 73786976294838206529 6 1152921504606846975\n\
1 13 9 rnd_zero sat -295251 6 -4096\n\
1 2 1 rnd_zero sat_sym -38 1 -1\n\
1 2 1 rnd_zero sat_sym 34 2 1\n\
1 25 6 rnd_zero sat_sym -201326584 21 -16777215\n\
1 16 12 rnd_zero sat_sym -131081 6 -32767\n\
1 1 1 rnd_zero sat_zero 24 3 0\n\
1 4 4 rnd_zero sat_zero -8 4 0\n\
1 13 0 rnd_zero sat_zero 8063 14 4031\n\
1 18 15 rnd_zero sat_zero 159122 4 79561\n\
1 4 4 rnd_zero wrap 33 3 4\n\
1 4 4 rnd_zero wrap 27 4 2\n\
1 53 53 rnd_zero wrap -1 7 0\n\
1 9 9 rnd_zero wrap 53595695783062097759 0 -161\n\
1 1 1 trn sat 32 2 0\n\
1 4 1 trn sat 9 4 4\n\
1 27 27 trn sat 63090248 1 31545124\n\
1 63 0 trn sat 4611686018427387902 64 2305843009213693951\n\
1 4 3 trn sat_sym 26 0 7\n\
1 4 3 trn sat_sym 9 3 2\n\
1 1 1 trn sat_sym 2 0 0\n\
1 34 34 trn sat_sym 2 1 1\n\
1 4 2 trn sat_zero 5 2 5\n\
1 3 3 trn sat_zero -33 1 0\n\
1 33 0 trn sat_zero -17179869197 35 0\n\
1 54 31 trn sat_zero 5170350862696985833 27 0\n\
1 4 4 trn wrap 40 2 -6\n\
1 1 0 trn wrap -28 4 0\n\
1 1 0 trn wrap 3530480653189571418575286391 2 -1\n\
1 32 4 trn wrap -4294967295 29 -2147483648\n\
1 2 1 trn_zero sat -36 4 -2\n\
1 4 0 trn_zero sat -12 0 -8\n\
1 16 1 trn_zero sat 9903520314283042199192993792 91 32767\n\
1 55 17 trn_zero sat -18751602431231904 44 -292993787987998\n\
1 2 0 trn_zero sat_sym -29 0 -1\n\
1 3 1 trn_zero sat_sym -40 0 -3\n\
1 8 4 trn_zero sat_sym -697344 15 -127\n\
1 36 20 trn_zero sat_sym -15762598695861760 32 -34359738367\n\
1 4 3 trn_zero sat_zero 39 3 0\n\
1 2 2 trn_zero sat_zero 22 1 0\n\
1 16 16 trn_zero sat_zero -65535 1 -32767\n\
1 7 6 trn_zero sat_zero 133 2 0\n\
1 3 3 trn_zero wrap 21 2 -3\n\
1 2 1 trn_zero wrap 22 4 -2\n\
1 10 1 trn_zero wrap -68503 10 -459\n\
1 63 63 trn_zero wrap 851630655522849223760672047759360 50 756399969790465952\n";

fn quant(word: &str) -> Option<Quant> {
    match word {
        "trn" => Some(Quant::Trn),
        "trn_zero" => Some(Quant::TrnZero),
        "rnd" => Some(Quant::Rnd),
        "rnd_zero" => Some(Quant::RndZero),
        "rnd_min_inf" => Some(Quant::RndMinInf),
        "rnd_inf" => Some(Quant::RndInf),
        "rnd_conv" => Some(Quant::RndConv),
        _ => None,
    }
}

fn over(word: &str) -> Option<Over> {
    match word {
        "wrap" => Some(Over::Wrap),
        "sat" => Some(Over::Sat),
        "sat_zero" => Some(Over::SatZero),
        "sat_sym" => Some(Over::SatSym),
        _ => None,
    }
}

// Whether a value may be cast that gains so many fraction bits.
#[tactic(auto, using(tdf_base::proofs::Api::scaled_within))]
fn fits(num: i128, bits: u32) -> bool
    requires { bits ≤ 63 }
    ensures { IsTrue result → unsigned_abs num * 2 ^ bits ≤ 2 ^ 120 }
{
    num.unsigned_abs() <= 1 << (120 - bits)
}

// The line's value, cast, and the number that it should have; `None` where the line is none.
fn cast_line(line: &str) -> Option<(i128, i128)> {
    let mut words = line.split_whitespace();
    let signed = words.next()? == "1";
    let wl = words.next()?.parse().ok()?;
    let iwl = words.next()?.parse().ok()?;
    let format = Format::new(signed, wl, iwl, quant(words.next()?)?, over(words.next()?)?)?;
    let num: i128 = words.next()?.parse().ok()?;
    let frac: u32 = words.next()?.parse().ok()?;
    let result = words.next()?.parse().ok()?;
    if frac > 120 || !fits(num, (wl - iwl).saturating_sub(frac)) {
        return None;
    }
    Some((cast(Raw { num, frac }, format).num, result))
}

fn check_lines(rt: &impl std::process::Abort, lines: &str) {
    for line in lines.lines() {
        let (found, wanted) = cast_line(line).expect(rt, "a line of the table");
        assert_eq!(rt; found, wanted, "at {line}");
    }
}

#[test]
fn casts(rt: HostRuntime) {
    assert_eq!(rt; TABLES.lines().count(), 29);
    assert_eq!(rt; VECTORS.lines().count(), 225);
    check_lines(&rt, TABLES);
    check_lines(&rt, VECTORS);
}

#[test]
fn trn_wrap(rt: HostRuntime) {
    let format = Format::new(true, 4, 2, Quant::Trn, Over::Wrap).expect(&rt, "a format");
    let cut = cast_trn_wrap(Raw { num: 29, frac: 3 }, format);
    assert_eq!(rt; cut, Raw { num: -2, frac: 2 });
    let long = cast_trn_wrap(
        Raw {
            num: -(1 << 100) - 1,
            frac: 100,
        },
        format,
    );
    assert_eq!(rt; long, Raw { num: -5, frac: 2 });
}

#[test]
fn literals(rt: HostRuntime) -> Result<(), Fail> {
    let format = Format::new(true, 16, 1, Quant::Trn, Over::Wrap).expect(&rt, "a format");
    assert_eq!(rt; (format.signed(), format.wl(), format.iwl()), (true, 16, 1));
    assert_eq!(rt; (format.quant(), format.over()), (Quant::Trn, Over::Wrap));
    let tenth = read_decimal(b"0.1", format)?;
    assert_eq!(rt;
        tenth,
        Raw {
            num: 3276,
            frac: 15
        }
    );
    let mut out = Vec::new(rt.alloc());
    push_decimal(&mut out, tenth)?;
    assert_eq!(rt; out.as_slice(), b"0.0999755859375".as_slice());
    Ok(())
}

#[test]
fn refused_literals(rt: HostRuntime) {
    let wide = Format::new(true, 8, 8, Quant::RndConv, Over::Sat).expect(&rt, "a format");
    assert_eq!(rt; read_decimal(b"-2.5", wide), Ok(Raw { num: -2, frac: 0 }));
    assert_eq!(rt;
        read_decimal(b"1000000000000000000", wide),
        Err(DecimalErr::TooManyDigits)
    );
    assert_eq!(rt; read_decimal(b"1.", wide), Err(DecimalErr::NotNumber));
}

#[test]
fn exact_values(rt: HostRuntime) -> Result<(), Fail> {
    assert_eq!(rt; read_exact(b"-12.375"), Ok(Raw { num: -99, frac: 3 }));
    assert_eq!(rt; read_exact(b"0.1"), Err(NumErr::Inexact));
    assert_eq!(rt; read_exact(b"--1"), Err(NumErr::NotNumber));
    let mut out = Vec::new(rt.alloc());
    push_bits(&mut out, Raw { num: -3, frac: 0 }, 5)?;
    assert_eq!(rt; out.as_slice(), b"11101".as_slice());
    Ok(())
}

#[test]
fn picoseconds(rt: HostRuntime) {
    assert_eq!(rt; read_time(b"0.5ps"), Err(TimeErr::NotTime));
    assert_eq!(rt; read_time(b"1000000s"), Err(TimeErr::TimeTooLarge));
    assert_eq!(rt;
        read_time(b"999999.999999999999s"),
        Ok(999_999_999_999_999_999)
    );
    assert_eq!(rt; read_time(b"63500ns"), Ok(63_500_000));
}

#[test]
fn femtoseconds(rt: HostRuntime) {
    assert_eq!(rt; read_time_at(b"1000fs", Resolution::Ps), Ok(1));
    assert_eq!(rt; read_time_at(b"1fs", Resolution::Ps), Err(TimeErr::NotTime));
    assert_eq!(rt; read_time_at(b"1.5ps", Resolution::Fs), Ok(1500));
    assert_eq!(rt;
        read_time_at(b"1000s", Resolution::Fs),
        Err(TimeErr::TimeTooLarge)
    );
}

#[test]
fn seconds(rt: HostRuntime) -> Result<(), Fail> {
    let mut out = Vec::new(rt.alloc());
    push_seconds(&mut out, 63_500_000)?;
    out.push(b' ')?;
    push_seconds_at(&mut out, 1_000_000_000_000_001, Resolution::Fs)?;
    assert_eq!(rt; out.as_slice(), b"0.0000635 1.000000000000001".as_slice());
    Ok(())
}

#[test]
fn numerals(rt: HostRuntime) {
    assert!(rt; is_number(b"0.1") && !is_number(b".1"));
    assert!(rt; are_digits(b"02") && !are_digits(b""));
    assert_eq!(rt; read_int(b"0018"), Some(18));
    assert_eq!(rt; read_int(b"1000000000000000000"), None);
}

#[test]
fn sides(rt: HostRuntime) {
    let numeral = split(b"12.50").expect(&rt, "a numeral");
    assert!(rt; is_short(&numeral));
    assert_eq!(rt;
        (numeral.whole, numeral.fraction),
        (b"12".as_slice(), b"50".as_slice())
    );
    assert_eq!(rt; value(b"50"), 50);
    assert_eq!(rt; power_of_ten(2), 100);
}

#[test]
fn names(rt: HostRuntime) -> Result<(), Fail> {
    let first = Name::copied(rt.alloc(), b"gain")?;
    let second = Name::copied(rt.alloc(), b"gain_2")?;
    assert!(rt; first < second);
    assert!(rt; first != second);
    assert_eq!(rt; first.as_bytes(), b"gain".as_slice());
    assert_eq!(rt; second.as_bytes(), b"gain_2".as_slice());
    Ok(())
}

#[test]
fn digits(rt: HostRuntime) -> Result<(), Fail> {
    let digits = Digits::copied(rt.alloc(), b"2.5")?;
    let other = Digits::copied(rt.alloc(), b"2.5")?;
    assert!(rt; digits == other);
    assert_eq!(rt; digits.as_bytes(), b"2.5".as_slice());
    assert_eq!(rt; other.into_bytes().as_slice(), b"2.5".as_slice());
    Ok(())
}

#[test]
fn limits(rt: HostRuntime) {
    assert_eq!(rt; all_limits()[2], LONGEST_NAME as u64);
    assert_eq!(rt; all_limits()[5], TIME_END);
}

fn printed(out: &mut Vec<u8>, code: Code, place: Place) -> Result<(), Memory> {
    let fault = Fault { code, place };
    push_fault(out, &fault)?;
    out.push(b';')?;
    Ok(())
}

#[test]
fn faults(rt: HostRuntime) -> Result<(), Fail> {
    let mut out = Vec::new(rt.alloc());
    printed(&mut out, Code::TooLong, Place::Nowhere)?;
    printed(&mut out, Code::LongLine, Place::Line(2))?;
    assert_eq!(rt; out.as_slice(), b"TOO_LONG;LONG_LINE line 2;".as_slice());
    Ok(())
}

#[test]
fn words(rt: HostRuntime) -> Result<(), Fail> {
    let mut out = Vec::new(rt.alloc());
    push_word(&mut out, b"cluster ")?;
    push_number(&mut out, u64::from(cluster_number(4)?))?;
    assert_eq!(rt; out.as_slice(), b"cluster 5".as_slice());
    assert_eq!(rt; row_number(4)?, 4);
    Ok(())
}

#[test]
fn port_faults(rt: HostRuntime) -> Result<(), Fail> {
    let mut out = Vec::new(rt.alloc());
    let port = Path::copied(rt.alloc(), b"filter.in")?;
    printed(&mut out, Code::Mismatch, Place::LinePort(7, port))?;
    assert_eq!(rt;
        out.as_slice(),
        b"MISMATCH line 7 port filter.in;".as_slice()
    );
    Ok(())
}

#[test]
fn path_faults(rt: HostRuntime) -> Result<(), Fail> {
    let mut out = Vec::new(rt.alloc());
    let first = Path::copied(rt.alloc(), b"a.x")?;
    let second = Path::copied(rt.alloc(), b"b.y")?;
    printed(&mut out, Code::Rates, Place::Both(first, second))?;
    assert_eq!(rt; out.as_slice(), b"RATES path a.x path b.y;".as_slice());
    Ok(())
}

#[test]
fn index_faults(rt: HostRuntime) -> Result<(), Fail> {
    let mut out = Vec::new(rt.alloc());
    let path = Path::copied(rt.alloc(), b"a.x")?;
    assert_eq!(rt; path.as_bytes(), b"a.x".as_slice());
    printed(&mut out, Code::Range, Place::AtIndex(path, 2))?;
    printed(
        &mut out,
        Code::NoTimestep,
        Place::At(Path::copied(rt.alloc(), b"b")?),
    )?;
    assert_eq!(rt;
        out.as_slice(),
        b"RANGE path a.x index 2;NO_TIMESTEP path b;".as_slice()
    );
    Ok(())
}
