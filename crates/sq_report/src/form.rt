// The format of figures.
ghost use Rattle.std.specs.Prelude.{◌≡◌, ◌↔◌, IsTrue, codes, nat_eq};
ghost use Rattle.std.specs.List.{ends_with};

/// The format of figures: JSON or text.
#[derive(Clone, Copy, Debug, PartialEq, Eq)]
pub enum FiguresForm {
    /// One JSON value: [`figures_json`](crate::figures_json).
    Json,
    /// Tables: [`write_figures`](crate::write_figures).
    Text,
}

impl FiguresForm {
    /// The format for the file `name`: JSON if it ends in `.json`, else text.
    pub fn of_file(name: &str) -> FiguresForm
        ensures { (result ≡ FiguresForm.Json) ↔ IsTrue (ends_with nat_eq name.now (codes ".json")) }
    {
        if name.as_bytes().ends_with(b".json") {
            FiguresForm::Json
        } else {
            FiguresForm::Text
        }
    }
}
