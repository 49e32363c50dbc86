//! The options of the command line.

ghost use Rattle.std.specs.Prelude.{◌≡◌};
ghost use Rattle.mk_words.specs.Given.{label};

/// An option of the command line.
#[derive(Clone, Copy)]
pub(crate) enum Setting {
    /// How many workers share the work.
    Workers,
    /// How many pairs may be settled.
    Budget,
    /// Up to which weight essential moves are wanted.
    Upto,
    /// The sizes of a made table.
    Model,
}

/// The option's name, without its hyphens.
pub(crate) fn name<'a>(setting: Setting) -> &'a str
    ensures { result.now ≡ label setting }
{
    match setting {
        Setting::Workers => "workers",
        Setting::Budget => "budget",
        Setting::Upto => "upto",
        Setting::Model => "model",
    }
}
