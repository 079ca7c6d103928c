//! Laws of the definitions. The functions do nothing: what they ensure is the law.
ghost use Rattle.uvl_words.specs.CommandLineForms.{FormsAreTaken, OnlyFormsAreTaken};

/// The words of the command line that ask for something are those of its forms: the option in front
/// of the model or behind it, and `--` in front of the model or at the end.
pub fn the_command_line_has_these_forms()
    ensures taken { FormsAreTaken }
    ensures alone { OnlyFormsAreTaken }
{}
