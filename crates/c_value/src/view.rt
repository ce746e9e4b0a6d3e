//! What a memory view of the object space tells.
ghost use Rattle.std.specs.Prelude.{◌≡◌, true};
ghost use Rattle.api_model.specs.Answers.{is_view};

use api_model::Info;
use std::marker::Model;

/// What a memory view tells, where it is in form: its buffer has an end (Python/C API manual, "Buffer Protocol").
#[derive(Drop)]
pub struct ViewInfo {
    info: Info,
}

impl Model for ViewInfo {
    ghost use Rattle.std.specs.Prelude.{◌≡◌, true};
    ghost use Rattle.api_model.specs.declared.info.Info.{Info};
    ghost use Rattle.api_model.specs.Answers.{is_view};

    ghost Value = { Info };

    ghost view = { λ it. it.info };

    ghost invariant = { λ it. is_view it.info ≡ true };
}

impl ViewInfo {
    /// What a view tells that is in form.
    pub fn new(info: Info) -> ViewInfo
        requires { is_view info ≡ true }
        ensures { result ≡ info }
    {
        ViewInfo { info }
    }

    /// What it tells.
    pub fn info(&self) -> &Info
        ensures { (result.now ≡ self.now) × (is_view result.now ≡ true) }
    {
        &self.info
    }
}
