//! Glyphs that are bolder or slanted though the font has none such, as words ask for them.

ghost use Rattle.std.specs.Prelude.{◌≡◌, codes, is_some, option_map, None, IfOk, IfErr};
ghost use Rattle.clap.specs.Matches.{found_of, first_value};
ghost use Rattle.shape_options.specs.Options.{AreNotBoth, IfGiven, IsReadAs};
ghost use Rattle.shape_options.specs.Variations.{number_of};

use crate::options::OptionsError;
use crate::sizes::one_or_two;
use crate::variations::value;
use clap::ArgMatches;

/// How glyphs are drawn otherwise than the font has them (HarfBuzz's `hb_font_set_synthetic_bold` and `hb_font_set_synthetic_slant`).
#[derive(Clone, Copy, PartialEq)]
pub struct Synthetic {
    /// How much bolder they are across and upwards, in ems.
    pub bold: (f32, f32),
    /// Whether they stay as far apart as they are, though they are bolder.
    pub in_place: bool,
    /// How far to the right what stands an em higher is moved, in ems.
    pub slant: f32,
}

/// What the words of a command line say of it.
pub(crate) fn synthetic_of<'a>(matches: &ArgMatches<'a>) -> Result<Synthetic, OptionsError<'a>>
    ensures one { IfOk result (λ _. AreNotBoth (first_value (found_of matches.now) (codes "font-bold"))
        (first_value (found_of matches.now) (codes "font-grade"))) }
    ensures in_place { IfOk result (λ synthetic.
        synthetic.in_place ≡ is_some (first_value (found_of matches.now) (codes "font-grade"))) }
    ensures slant { IfOk result (λ synthetic.
        IsReadAs synthetic.slant (first_value (found_of matches.now) (codes "font-slant"))) }
{
    let bold = matches.get_str("font-bold");
    let grade = matches.get_str("font-grade");
    of_values(bold, grade, matches.get_str("font-slant"))
}

/// What the values of its options say of it.
fn of_values<'a>(
    bold: Option<&'a str>,
    grade: Option<&'a str>,
    slant: Option<&'a str>,
) -> Result<Synthetic, OptionsError<'a>>
    ensures one { IfOk result (λ _. AreNotBoth (option_map (λ text. text.now) bold.entry)
        (option_map (λ text. text.now) grade.entry)) }
    ensures in_place { IfOk result (λ synthetic.
        synthetic.in_place ≡ is_some (option_map (λ text. text.now) grade.entry)) }
    ensures slant { IfOk result (λ synthetic. IsReadAs synthetic.slant (option_map (λ text. text.now) slant.entry)) }
{
    match grade {
        Some(grade) => {
            if bold.is_some() {
                return Err(OptionsError::TwoBolds);
            }
            let bold = strengths("font-grade", Some(grade))?;
            let slant = number_or_0("font-slant", slant)?;
            Ok(Synthetic {
                bold,
                in_place: true,
                slant,
            })
        }
        None => {
            let bold = strengths("font-bold", bold)?;
            let slant = number_or_0("font-slant", slant)?;
            Ok(Synthetic {
                bold,
                in_place: false,
                slant,
            })
        }
    }
}

/// The strengths across and upwards that an option asks for.
fn strengths<'a>(
    name: &'static str,
    text: Option<&'a str>,
) -> Result<(f32, f32), OptionsError<'a>> {
    let Some(text) = text else {
        return Ok((0.0, 0.0));
    };
    let (first, second) = one_or_two(text);
    match (value(first), value(second)) {
        (Some(across), Some(upwards)) => Ok((across, upwards)),
        _ => Err(OptionsError::Size(name, text)),
    }
}

/// The number of an option, and 0 where it is not given.
fn number_or_0<'a>(name: &'static str, text: Option<&'a str>) -> Result<f32, OptionsError<'a>>
    ensures ok { IfOk result (λ number. IsReadAs number (option_map (λ text. text.now) text.entry)) }
    ensures err { IfErr result (λ _. IfGiven (λ text. number_of text ≡ None) (option_map (λ text. text.now) text.entry)) }
{
    match text {
        Some(text) => match value(text) {
            Some(number) => Ok(number),
            None => Err(OptionsError::Size(name, text)),
        },
        None => Ok(0.0),
    }
}
