//! The standard strings (The Compact Font Format Specification, Appendix A).

ghost use Rattle.std.specs.Prelude.{◌≡◌, slice_get};
ghost use Rattle.std.specs.Option.{option_copied};
ghost use Rattle.font_outlines.specs.StandardStrings.{standard_rows, standard_string};

/// The standard string of a number; `None` from 391 on.
#[tactic(auto, unfolding(crate::specs::StandardStrings::standard_string))]
pub fn standard_string(number: u16) -> Option<&'static str>
    ensures { option_copied result ≡ standard_string number }
{
    let row = standard_row(number / 32)?;
    row.split(' ').nth(usize::from(number % 32))
}

/// A row of 32 standard strings, with a space between two.
#[tactic(auto, unfolding(crate::specs::StandardStrings::standard_rows))]
fn standard_row(row: u16) -> Option<&'static str>
    ensures { option_copied result ≡ slice_get standard_rows row }
{
    match row {
        0 => Some(
            ".notdef space exclam quotedbl numbersign dollar percent ampersand quoteright \
             parenleft parenright asterisk plus comma hyphen period slash zero one two three \
             four five six seven eight nine colon semicolon less equal greater",
        ),
        1 => Some(
            "question at A B C D E F G H I J K L M N O P Q R S T U V W X Y Z bracketleft \
             backslash bracketright asciicircum",
        ),
        2 => Some(
            "underscore quoteleft a b c d e f g h i j k l m n o p q r s t u v w x y z braceleft \
             bar braceright asciitilde",
        ),
        3 => Some(
            "exclamdown cent sterling fraction yen florin section currency quotesingle \
             quotedblleft guillemotleft guilsinglleft guilsinglright fi fl endash dagger \
             daggerdbl periodcentered paragraph bullet quotesinglbase quotedblbase quotedblright \
             guillemotright ellipsis perthousand questiondown grave acute circumflex tilde",
        ),
        4 => Some(
            "macron breve dotaccent dieresis ring cedilla hungarumlaut ogonek caron emdash AE \
             ordfeminine Lslash Oslash OE ordmasculine ae dotlessi lslash oslash oe germandbls \
             onesuperior logicalnot mu trademark Eth onehalf plusminus Thorn onequarter divide",
        ),
        5 => Some(
            "brokenbar degree thorn threequarters twosuperior registered minus eth multiply \
             threesuperior copyright Aacute Acircumflex Adieresis Agrave Aring Atilde Ccedilla \
             Eacute Ecircumflex Edieresis Egrave Iacute Icircumflex Idieresis Igrave Ntilde \
             Oacute Ocircumflex Odieresis Ograve Otilde",
        ),
        6 => Some(
            "Scaron Uacute Ucircumflex Udieresis Ugrave Yacute Ydieresis Zcaron aacute \
             acircumflex adieresis agrave aring atilde ccedilla eacute ecircumflex edieresis \
             egrave iacute icircumflex idieresis igrave ntilde oacute ocircumflex odieresis \
             ograve otilde scaron uacute ucircumflex",
        ),
        7 => Some(
            "udieresis ugrave yacute ydieresis zcaron exclamsmall Hungarumlautsmall \
             dollaroldstyle dollarsuperior ampersandsmall Acutesmall parenleftsuperior \
             parenrightsuperior twodotenleader onedotenleader zerooldstyle oneoldstyle \
             twooldstyle threeoldstyle fouroldstyle fiveoldstyle sixoldstyle sevenoldstyle \
             eightoldstyle nineoldstyle commasuperior threequartersemdash periodsuperior \
             questionsmall asuperior bsuperior centsuperior",
        ),
        8 => Some(
            "dsuperior esuperior isuperior lsuperior msuperior nsuperior osuperior rsuperior \
             ssuperior tsuperior ff ffi ffl parenleftinferior parenrightinferior Circumflexsmall \
             hyphensuperior Gravesmall Asmall Bsmall Csmall Dsmall Esmall Fsmall Gsmall Hsmall \
             Ismall Jsmall Ksmall Lsmall Msmall Nsmall",
        ),
        9 => Some(
            "Osmall Psmall Qsmall Rsmall Ssmall Tsmall Usmall Vsmall Wsmall Xsmall Ysmall Zsmall \
             colonmonetary onefitted rupiah Tildesmall exclamdownsmall centoldstyle Lslashsmall \
             Scaronsmall Zcaronsmall Dieresissmall Brevesmall Caronsmall Dotaccentsmall \
             Macronsmall figuredash hypheninferior Ogoneksmall Ringsmall Cedillasmall \
             questiondownsmall",
        ),
        10 => Some(
            "oneeighth threeeighths fiveeighths seveneighths onethird twothirds zerosuperior \
             foursuperior fivesuperior sixsuperior sevensuperior eightsuperior ninesuperior \
             zeroinferior oneinferior twoinferior threeinferior fourinferior fiveinferior \
             sixinferior seveninferior eightinferior nineinferior centinferior dollarinferior \
             periodinferior commainferior Agravesmall Aacutesmall Acircumflexsmall Atildesmall \
             Adieresissmall",
        ),
        11 => Some(
            "Aringsmall AEsmall Ccedillasmall Egravesmall Eacutesmall Ecircumflexsmall \
             Edieresissmall Igravesmall Iacutesmall Icircumflexsmall Idieresissmall Ethsmall \
             Ntildesmall Ogravesmall Oacutesmall Ocircumflexsmall Otildesmall Odieresissmall \
             OEsmall Oslashsmall Ugravesmall Uacutesmall Ucircumflexsmall Udieresissmall \
             Yacutesmall Thornsmall Ydieresissmall 001.000 001.001 001.002 001.003 Black",
        ),
        12 => Some("Bold Book Light Medium Regular Roman Semibold"),
        _ => None,
    }
}
