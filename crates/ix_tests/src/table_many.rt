//! What operations give of many facts, and joins of many.

use crate::tables::Step::{After, Checksum, Drawn, Join, New, OtherDrawn};
use crate::tables::{Step, agree};
use ix_core::{Profile, UnaryNum};
use ix_fact_rows::{Does, Holds};
use ix_num::Arith;

/// Where the drawing of facts starts and how many are drawn, and an operation; the checksum of what the six tables say after it.
#[rattlefmt::skip]
const AFTER_ROWS: &[Step] = &[
    New, Drawn(325, 60), After(Profile::Int32, Does::Num(39, Arith::Add, 1, 2)), Checksum(1297483095569569900),
    New, Drawn(370, 120), After(Profile::Int32, Does::Num(39, Arith::Add, 3, 17)), Checksum(1647729030866090293),
    New, Drawn(335, 60), After(Profile::Ideal, Does::Num(39, Arith::Add, 7, 7)), Checksum(-8976845601309853185),
    New, Drawn(210, 120), After(Profile::Ideal, Does::Num(39, Arith::Sub, 4, 9)), Checksum(-7831299775513102408),
    New, Drawn(364, 60), After(Profile::Int32, Does::Num(39, Arith::Sub, 12, 30)), Checksum(8883924423639104934),
    New, Drawn(212, 200), After(Profile::Int32, Does::Num(39, Arith::Mul, 5, 6)), Checksum(6930210720106195698),
    New, Drawn(134, 60), After(Profile::Ideal, Does::Num(39, Arith::Div, 8, 11)), Checksum(8259332926204468340),
    New, Drawn(337, 120), After(Profile::Ideal, Does::Num(39, Arith::Rem, 13, 2)), Checksum(6937365938260650710),
    New, Drawn(366, 60), After(Profile::Int32, Does::Num(39, Arith::And, 21, 22)), Checksum(7267705521705001606),
    New, Drawn(218, 120), After(Profile::Int32, Does::Num(39, Arith::Or, 1, 5)), Checksum(2586074781525055376),
    New, Drawn(135, 60), After(Profile::Ideal, Does::Num(39, Arith::Xor, 3, 8)), Checksum(3063622169870227809),
    New, Drawn(36, 120), After(Profile::Ideal, Does::Num(39, Arith::Shl, 2, 4)), Checksum(-4130671381233823884),
    New, Drawn(321, 60), After(Profile::Int32, Does::Num(39, Arith::Shr, 14, 15)), Checksum(-6354086200836296066),
    New, Drawn(8, 200), After(Profile::Int32, Does::Num(39, Arith::Ushr, 16, 19)), Checksum(-2046397217755829861),
    New, Drawn(283, 60), After(Profile::Ideal, Does::Unary(39, UnaryNum::Neg, 10)), Checksum(-7405090740569255488),
    New, Drawn(210, 120), After(Profile::Ideal, Does::Unary(39, UnaryNum::Flip, 23)), Checksum(8967408022239651442),
    New, Drawn(116, 60), After(Profile::Int32, Does::Length(39, 41)), Checksum(5930088829575873311),
    New, Drawn(273, 120), After(Profile::Int32, Does::Length(39, 44)), Checksum(-2557245475319227407),
    New, Drawn(10, 60), After(Profile::Ideal, Does::NewArray(50, 18)), Checksum(7375131826127025182),
    New, Drawn(355, 120), After(Profile::Ideal, Does::NewArray(50, 25)), Checksum(-3376763586205811496),
    New, Drawn(380, 60), After(Profile::Int32, Does::Fill(50, 3)), Checksum(-1209865752462087098),
    New, Drawn(23, 200), After(Profile::Int32, Does::Int(39, 7)), Checksum(4180740393628768740),
    New, Drawn(42, 60), After(Profile::Ideal, Does::Int(39, -4)), Checksum(2293203247472222698),
    New, Drawn(16, 120), After(Profile::Ideal, Does::Null(50)), Checksum(-6636405271557598221),
    New, Drawn(139, 60), After(Profile::Int32, Does::Copy(39, 20, Holds::Ints)), Checksum(4728981776749240846),
    New, Drawn(372, 120), After(Profile::Int32, Does::Copy(39, 33, Holds::Ints)), Checksum(-4110660322714489733),
    New, Drawn(179, 60), After(Profile::Ideal, Does::Copy(50, 42, Holds::Arrays)), Checksum(-3753189948902118933),
    New, Drawn(263, 120), After(Profile::Ideal, Does::Copy(50, 45, Holds::Arrays)), Checksum(536282315170324633),
    New, Drawn(21, 60), After(Profile::Int32, Does::Num(1, Arith::Add, 2, 3)), Checksum(-2690965753963557450),
    New, Drawn(276, 200), After(Profile::Int32, Does::Num(5, Arith::Sub, 6, 7)), Checksum(-7878351793350624346),
    New, Drawn(318, 60), After(Profile::Ideal, Does::Copy(9, 8, Holds::Ints)), Checksum(3292417181411178881),
    New, Drawn(261, 120), After(Profile::Ideal, Does::Copy(43, 42, Holds::Arrays)), Checksum(-6927690656469644330),
    New, Drawn(143, 60), After(Profile::Int32, Does::Length(12, 41)), Checksum(-4974615030199498615),
    New, Drawn(242, 120), After(Profile::Int32, Does::Unary(60, UnaryNum::Neg, 4)), Checksum(7738563293816693292),
];

/// Where two drawings start, and how many facts are drawn in each; the checksum of the joins of their tables.
#[rattlefmt::skip]
const JOINED_ROWS: &[Step] = &[
    New, Drawn(174, 60), OtherDrawn(174, 60), Join, Checksum(3158600396947412404),
    New, Drawn(227, 120), OtherDrawn(1, 120), Join, Checksum(-1602186221507599527),
    New, Drawn(23, 200), OtherDrawn(300, 200), Join, Checksum(-6019648378304922865),
    New, Drawn(205, 60), OtherDrawn(290, 60), Join, Checksum(1475410692697349922),
    New, Drawn(252, 120), OtherDrawn(357, 120), Join, Checksum(2737999360680261334),
    New, Drawn(23, 200), OtherDrawn(253, 200), Join, Checksum(-3558839777396649265),
    New, Drawn(231, 60), OtherDrawn(171, 60), Join, Checksum(-5057828937347544749),
    New, Drawn(238, 120), OtherDrawn(131, 120), Join, Checksum(3071019109503060270),
];

#[test]
fn operations_give_their_facts_among_many(rt: HostRuntime) {
    agree(&rt, AFTER_ROWS);
}

#[test]
fn joins_of_many_say_what_both_say(rt: HostRuntime) {
    agree(&rt, JOINED_ROWS);
}
