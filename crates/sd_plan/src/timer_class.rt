ghost use Rattle.std.specs.Prelude.{◌≡◌};
ghost use Rattle.std.specs.List.{list_any};
ghost use Rattle.std.specs.Str.{bytes_eq};
ghost use Rattle.sd_model_settings.specs.Entries.{class_name, is_class_name};
ghost use Rattle.sd_plan.specs.Calculated.{class_of};

/// A class of a timer's lines: one of the statistics of all values, all bins, or one of the statistics of the parts that
/// the thresholds take.
#[derive(Clone, Copy, Debug, PartialEq, Eq)]
pub enum TimerClass {
    Std,
    Upper,
    Lower,
    Count,
    CountPs,
    Sum,
    SumSquares,
    Mean,
    Median,
    Histogram,
    CountPercent,
    MeanPercent,
    UpperPercent,
    LowerPercent,
    SumPercent,
    SumSquaresPercent,
}

impl TimerClass {
    /// The name that the settings have for it.
    pub fn name(self) -> &'static [u8]
        ensures { result.now ≡ class_name (class_of self) }
    {
        match self {
            TimerClass::Std => b"std",
            TimerClass::Upper => b"upper",
            TimerClass::Lower => b"lower",
            TimerClass::Count => b"count",
            TimerClass::CountPs => b"count_ps",
            TimerClass::Sum => b"sum",
            TimerClass::SumSquares => b"sum_squares",
            TimerClass::Mean => b"mean",
            TimerClass::Median => b"median",
            TimerClass::Histogram => b"histogram",
            TimerClass::CountPercent => b"count_percent",
            TimerClass::MeanPercent => b"mean_percent",
            TimerClass::UpperPercent => b"upper_percent",
            TimerClass::LowerPercent => b"lower_percent",
            TimerClass::SumPercent => b"sum_percent",
            TimerClass::SumSquaresPercent => b"sum_squares_percent",
        }
    }
}

// All classes.
const CLASSES: [TimerClass; 16] = [
    TimerClass::Std,
    TimerClass::Upper,
    TimerClass::Lower,
    TimerClass::Count,
    TimerClass::CountPs,
    TimerClass::Sum,
    TimerClass::SumSquares,
    TimerClass::Mean,
    TimerClass::Median,
    TimerClass::Histogram,
    TimerClass::CountPercent,
    TimerClass::MeanPercent,
    TimerClass::UpperPercent,
    TimerClass::LowerPercent,
    TimerClass::SumPercent,
    TimerClass::SumSquaresPercent,
];

// Whether some bytes are the name of one of some classes.
fn is_name_of(bytes: &[u8], classes: &[TimerClass]) -> bool
    ensures { result ≡ list_any (λ c. bytes_eq bytes.now (class_name (class_of c))) classes.now }
{
    classes.iter().any(|class| bytes == class.name())
}

/// Whether some bytes are the name of a class.
pub fn is_class_name(bytes: &[u8]) -> bool
    ensures { result ≡ is_class_name bytes.now }
{
    is_name_of(bytes, &CLASSES)
}
