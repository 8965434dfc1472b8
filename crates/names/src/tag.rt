// Written by tools/names.py from names.txt and specs/Sets.antt.
// The numbers of names that rules speak of, by name. specs/Tag.antt has the same, and proofs/Tags.antt ties each to its bytes.
ghost use Rattle.std.specs.Prelude.{◌≡◌};
ghost use Rattle.names.specs.Tags.{tags1, tags2, tags3, tags4, tags5};

pub const A: u16 = 1;

pub const ADDRESS: u16 = 4;

pub const ANNOTATION_XML: u16 = 17;

pub const APPLET: u16 = 18;

pub const AREA: u16 = 20;

pub const ARTICLE: u16 = 21;

pub const ASIDE: u16 = 22;

pub const B: u16 = 28;

pub const BASE: u16 = 29;

pub const BASEFONT: u16 = 32;

pub const BGSOUND: u16 = 35;

pub const BIG: u16 = 36;

pub const BLOCKQUOTE: u16 = 37;

pub const BODY: u16 = 38;

pub const BR: u16 = 39;

pub const BUTTON: u16 = 40;

pub const CAPTION: u16 = 43;

pub const CENTER: u16 = 44;

pub const CODE: u16 = 50;

pub const COL: u16 = 51;

pub const COLGROUP: u16 = 52;

pub const COLOR: u16 = 53;

pub const DD: u16 = 55;

pub const DESC: u16 = 58;

pub const DETAILS: u16 = 59;

pub const DIALOG: u16 = 60;

pub const DIR: u16 = 63;

pub const DIV: u16 = 64;

pub const DL: u16 = 65;

pub const DT: u16 = 66;

pub const EM: u16 = 69;

pub const EMBED: u16 = 70;

pub const ENCODING: u16 = 71;

pub const FACE: u16 = 72;

pub const FIELDSET: u16 = 123;

pub const FIGCAPTION: u16 = 124;

pub const FIGURE: u16 = 125;

pub const FONT: u16 = 128;

pub const FOOTER: u16 = 129;

pub const FOREIGN_OBJECT: u16 = 130;

pub const FORM: u16 = 132;

pub const FRAME: u16 = 133;

pub const FRAMESET: u16 = 134;

pub const H1: u16 = 141;

pub const H2: u16 = 142;

pub const H3: u16 = 143;

pub const H4: u16 = 144;

pub const H5: u16 = 145;

pub const H6: u16 = 146;

pub const HEAD: u16 = 147;

pub const HEADER: u16 = 148;

pub const HGROUP: u16 = 149;

pub const HR: u16 = 150;

pub const HTML: u16 = 152;

pub const I: u16 = 154;

pub const IFRAME: u16 = 156;

pub const IMAGE: u16 = 157;

pub const IMG: u16 = 158;

pub const INPUT: u16 = 159;

pub const KEYGEN: u16 = 168;

pub const LI: u16 = 175;

pub const LINK: u16 = 180;

pub const LISTING: u16 = 181;

pub const MAIN: u16 = 182;

pub const MALIGNMARK: u16 = 183;

pub const MARQUEE: u16 = 190;

pub const MATH: u16 = 195;

pub const MENU: u16 = 196;

pub const META: u16 = 197;

pub const MGLYPH: u16 = 198;

pub const MI: u16 = 199;

pub const MN: u16 = 200;

pub const MO: u16 = 201;

pub const MS: u16 = 202;

pub const MTEXT: u16 = 203;

pub const NAV: u16 = 205;

pub const NOBR: u16 = 206;

pub const NOEMBED: u16 = 207;

pub const NOFRAMES: u16 = 208;

pub const NOSCRIPT: u16 = 209;

pub const OBJECT: u16 = 212;

pub const OL: u16 = 213;

pub const OPTGROUP: u16 = 214;

pub const OPTION: u16 = 215;

pub const P: u16 = 217;

pub const PARAM: u16 = 218;

pub const PLAINTEXT: u16 = 227;

pub const PRE: u16 = 234;

pub const RB: u16 = 243;

pub const RP: u16 = 257;

pub const RT: u16 = 258;

pub const RTC: u16 = 259;

pub const RUBY: u16 = 260;

pub const S: u16 = 261;

pub const SARCASM: u16 = 262;

pub const SCRIPT: u16 = 263;

pub const SEARCH: u16 = 264;

pub const SECTION: u16 = 265;

pub const SELECT: u16 = 266;

pub const SELECTEDCONTENT: u16 = 267;

pub const SIZE: u16 = 275;

pub const SMALL: u16 = 276;

pub const SOURCE: u16 = 277;

pub const SPAN: u16 = 279;

pub const STRIKE: u16 = 293;

pub const STRONG: u16 = 294;

pub const STYLE: u16 = 295;

pub const SUB: u16 = 296;

pub const SUMMARY: u16 = 297;

pub const SUP: u16 = 298;

pub const SVG: u16 = 301;

pub const TABLE: u16 = 304;

pub const TBODY: u16 = 311;

pub const TD: u16 = 312;

pub const TEMPLATE: u16 = 313;

pub const TEXTAREA: u16 = 316;

pub const TFOOT: u16 = 319;

pub const TH: u16 = 320;

pub const THEAD: u16 = 321;

pub const TITLE: u16 = 322;

pub const TR: u16 = 323;

pub const TRACK: u16 = 324;

pub const TT: u16 = 325;

pub const TYPE: u16 = 326;

pub const U: u16 = 327;

pub const UL: u16 = 328;

pub const VAR: u16 = 329;

pub const WBR: u16 = 334;

pub const XMP: u16 = 349;

// All of them, part by part, so that the check holds each to its definition.
pub fn all_1() -> [u16; 26]
    ensures { result ≡ tags1 }
{
    [
        A,
        ADDRESS,
        ANNOTATION_XML,
        APPLET,
        AREA,
        ARTICLE,
        ASIDE,
        B,
        BASE,
        BASEFONT,
        BGSOUND,
        BIG,
        BLOCKQUOTE,
        BODY,
        BR,
        BUTTON,
        CAPTION,
        CENTER,
        CODE,
        COL,
        COLGROUP,
        COLOR,
        DD,
        DESC,
        DETAILS,
        DIALOG,
    ]
}

pub fn all_2() -> [u16; 26]
    ensures { result ≡ tags2 }
{
    [
        DIR,
        DIV,
        DL,
        DT,
        EM,
        EMBED,
        ENCODING,
        FACE,
        FIELDSET,
        FIGCAPTION,
        FIGURE,
        FONT,
        FOOTER,
        FOREIGN_OBJECT,
        FORM,
        FRAME,
        FRAMESET,
        H1,
        H2,
        H3,
        H4,
        H5,
        H6,
        HEAD,
        HEADER,
        HGROUP,
    ]
}

pub fn all_3() -> [u16; 26]
    ensures { result ≡ tags3 }
{
    [
        HR, HTML, I, IFRAME, IMAGE, IMG, INPUT, KEYGEN, LI, LINK, LISTING, MAIN, MALIGNMARK,
        MARQUEE, MATH, MENU, META, MGLYPH, MI, MN, MO, MS, MTEXT, NAV, NOBR, NOEMBED,
    ]
}

pub fn all_4() -> [u16; 26]
    ensures { result ≡ tags4 }
{
    [
        NOFRAMES,
        NOSCRIPT,
        OBJECT,
        OL,
        OPTGROUP,
        OPTION,
        P,
        PARAM,
        PLAINTEXT,
        PRE,
        RB,
        RP,
        RT,
        RTC,
        RUBY,
        S,
        SARCASM,
        SCRIPT,
        SEARCH,
        SECTION,
        SELECT,
        SELECTEDCONTENT,
        SIZE,
        SMALL,
        SOURCE,
        SPAN,
    ]
}

pub fn all_5() -> [u16; 25]
    ensures { result ≡ tags5 }
{
    [
        STRIKE, STRONG, STYLE, SUB, SUMMARY, SUP, SVG, TABLE, TBODY, TD, TEMPLATE, TEXTAREA, TFOOT,
        TH, THEAD, TITLE, TR, TRACK, TT, TYPE, U, UL, VAR, WBR, XMP,
    ]
}
