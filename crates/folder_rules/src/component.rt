//! A component file of a channel.
use chan_values::Text;
use component_files::ComponentFile;

/// A component file with its path below the channel's folder.
pub struct PathedComponent {
    pub path: Text,
    pub file: ComponentFile,
}

// A derived drop is written out at each exit of a function that holds a component; this one is a call.
impl Drop for PathedComponent {
    fn drop(self) {
        let PathedComponent {
            path: _path,
            file: _file,
        } = self;
    }
}
