//! The keys of a job.

ghost use Rattle.std.specs.Prelude.{◌≡◌, map};
ghost use Rattle.elasticlunr_job_format.specs.Job.{job_keys};
ghost use Rattle.elasticlunr_job_format.specs.JobKeys.{key_name, keys_in_order, wanted_under};
ghost use Rattle.elasticlunr_job_format.specs.Keys.{is_job_key};

/// A key of a job.
#[derive(Clone, Copy)]
pub enum Key {
    Fields,
    Docs,
    Ref,
    Save,
    Lang,
    Pretty,
    Remove,
    Compact,
}

/// What a member of a job has to be.
#[derive(Clone, Copy)]
pub enum Wanted {
    Text,
    /// `true` or `false`.
    Truth,
    /// An array of texts.
    Texts,
    /// An array of documents, each an array of a reference and values.
    Documents,
}

impl Key {
    /// As it is written in JSON.
    pub fn name(self) -> &'static str
        ensures { result.now ≡ key_name self }
    {
        match self {
            Key::Fields => "fields",
            Key::Docs => "docs",
            Key::Ref => "ref",
            Key::Save => "save",
            Key::Lang => "lang",
            Key::Pretty => "pretty",
            Key::Remove => "remove",
            Key::Compact => "compact",
        }
    }

    /// What the member under it has to be.
    pub fn wanted(self) -> Wanted
        ensures { result ≡ wanted_under self }
    {
        match self {
            Key::Fields | Key::Remove => Wanted::Texts,
            Key::Docs => Wanted::Documents,
            Key::Ref | Key::Lang => Wanted::Text,
            Key::Save | Key::Pretty | Key::Compact => Wanted::Truth,
        }
    }
}

/// The keys of a job, as they are written.
pub fn job_keys() -> [&'static str; 8]
    ensures { map (λ key. key.now) result ≡ job_keys }
{
    [
        Key::Fields.name(),
        Key::Docs.name(),
        Key::Ref.name(),
        Key::Save.name(),
        Key::Lang.name(),
        Key::Pretty.name(),
        Key::Remove.name(),
        Key::Compact.name(),
    ]
}

/// Whether a job may have a member under this key.
pub(crate) fn is_job_key(key: &str) -> bool
    ensures { result ≡ is_job_key key.now }
{
    job_keys().contains(&key)
}

/// The keys in the order in which their members are looked at.
pub(crate) fn keys_in_order() -> [Key; 8]
    ensures { result ≡ keys_in_order }
{
    [
        Key::Fields,
        Key::Docs,
        Key::Ref,
        Key::Lang,
        Key::Save,
        Key::Pretty,
        Key::Compact,
        Key::Remove,
    ]
}
