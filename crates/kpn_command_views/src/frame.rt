//! What stands around the boxes of a picture: its size and style, the rows, the axis, and what the colours mean.
ghost use Rattle.std.specs.Prelude.{◌≡◌, ◌+◌, ◌-◌, ◌<◌, ◌≤◌, ◌^◌, ◌++◌, codes, max};
ghost use Rattle.kpn_command_base.specs.Added.{Adds};
ghost use Rattle.kpn_command_views.specs.TimelineText.{each_below};
ghost use Rattle.kpn_command_views.specs.PictureText.{row_place, edge_of, row_band, row_name_text, row, tick_line, axis_line, size_text, style_text, caption_text, picture_head_text, legend_front, legend_text, grid_text};
ghost use Rattle.kpn_command_views.specs.PictureText as spec;
ghost use Rattle.kpn_command_views.specs.Drawable.{IsDrawable};

use crate::boxes::row_of;
use crate::scale::Scale;
use kpn_command_base::Pushed;
use kpn_text::Document;

/// The size of a picture, its style, and which ticks of a run of this length it shows.
pub(crate) fn push_head(text: &mut String, scale: Scale, processes: usize, length: usize) -> Pushed
    requires drawable { IsDrawable scale }
    requires rows { processes < 2 ^ 16 }
    requires fits { scale.front + 1 < 2 ^ 64 }
    ensures { Adds result text.old text.new (picture_head_text scale processes length) }
{
    let wide = (scale.right() + 24).max(500);
    push_size(text, wide, row_of(processes) + 48)?;
    text.push_str(style_text())?;
    push_caption(text, scale.front + 1, scale.back, length)?;
    Ok(())
}

fn push_size(text: &mut String, wide: usize, high: usize) -> Pushed
    ensures { Adds result text.old text.new (size_text wide high) }
{
    write!(
        text,
        "<svg xmlns=\"http://www.w3.org/2000/svg\" width=\"{wide}\" height=\"{high}\" viewBox=\"0 0 {wide} {high}\">\n"
    )
}

fn push_caption(text: &mut String, first: usize, last: usize, length: usize) -> Pushed
    ensures { Adds result text.old text.new (caption_text first last length) }
{
    if length == 0 {
        text.push_str("<text x=\"12\" y=\"16\">no ticks</text>\n")
    } else if first == last {
        write!(
            text,
            "<text x=\"12\" y=\"16\">tick {first} of {length}</text>\n"
        )
    } else {
        write!(
            text,
            "<text x=\"12\" y=\"16\">ticks {first} to {last} of {length}</text>\n"
        )
    }
}

// Colours that colour-blind people tell apart.
fn style_text() -> &'static str
    ensures { result.now ≡ style_text }
{
    "<style>\ntext{font:12px sans-serif;fill:#222}\n.name{text-anchor:end}\n\
     .mark{font-size:10px;text-anchor:middle;fill:#555}\n.row{fill:#f4f4f4}\n.tick{stroke:#ddd}\n\
     .get{fill:#56b4e9}\n.put{fill:#0072b2}\n.empty{fill:#d9d9d9}\n.full{fill:#d55e00}\n.grow{fill:#222}\n\
     rect.get,rect.put,rect.empty,rect.full{stroke:#fff;stroke-width:.5}\n\
     text.get,text.put,text.empty,text.full{font-size:9px;text-anchor:middle;fill:#222}\n\
     text.put,text.full{fill:#fff}\n</style>\n<rect width=\"100%\" height=\"100%\" fill=\"#fff\"/>\n"
}

/// The rows of all processes, and the axis above them.
pub(crate) fn push_grid(
    text: &mut String,
    document: &Document,
    scale: Scale,
    processes: usize,
) -> Pushed
    requires drawable { IsDrawable scale }
    requires rows { processes < 2 ^ 16 }
    ensures { Adds result text.old text.new
        (grid_text document.now.names.instances scale processes) }
{
    push_rows(text, document, scale, processes)?;
    push_axis(text, scale, processes)?;
    Ok(())
}

fn push_rows(text: &mut String, document: &Document, scale: Scale, processes: usize) -> Pushed
    requires drawable { IsDrawable scale }
    requires rows { processes < 2 ^ 16 }
    ensures { Adds result text.old text.new
        (each_below processes (spec.row document.now.names.instances scale)) }
{
    for p in 0..processes {
        push_row(text, document, scale, p)?;
    }
    Ok(())
}

fn push_row(text: &mut String, document: &Document, scale: Scale, p: usize) -> Pushed
    requires drawable { IsDrawable scale }
    requires row { p < 2 ^ 16 }
    ensures { Adds result text.old text.new (spec.row document.now.names.instances scale p) }
{
    let wide = scale.right().saturating_sub(scale.left);
    push_row_band(text, scale.left, row_of(p) + 2, wide)?;
    let name = document.instance_name(p);
    push_row_name(text, scale.left.saturating_sub(8), row_of(p) + 20, name)?;
    Ok(())
}

fn push_row_band(text: &mut String, x: usize, y: usize, wide: usize) -> Pushed
    ensures { Adds result text.old text.new (row_band x y wide) }
{
    write!(
        text,
        "<rect class=\"row\" x=\"{x}\" y=\"{y}\" width=\"{wide}\" height=\"28\"/>\n"
    )
}

fn push_row_name(text: &mut String, x: usize, y: usize, name: &str) -> Pushed
    ensures { Adds result text.old text.new (row_name_text x y name.now) }
{
    write!(
        text,
        "<text class=\"name\" x=\"{x}\" y=\"{y}\">{name}</text>\n"
    )
}

// The numbers above the rows.
fn push_axis(text: &mut String, scale: Scale, processes: usize) -> Pushed
    requires drawable { IsDrawable scale }
    requires rows { processes < 2 ^ 16 }
    ensures { Adds result text.old text.new
        (each_below (spec.ticks_in scale + 1)
        (λ k. axis_line scale processes (scale.front + k))) }
{
    for k in 0..scale.ticks() + 1 {
        push_axis_line(text, scale, processes, scale.front + k)?;
    }
    Ok(())
}

// The line at the end of a tick, if the axis has its number.
fn push_axis_line(text: &mut String, scale: Scale, processes: usize, tick: usize) -> Pushed
    requires drawable { IsDrawable scale }
    requires rows { processes < 2 ^ 16 }
    ensures { Adds result text.old text.new (axis_line scale processes tick) }
{
    if tick % scale.step() == 0 {
        push_tick_line(text, scale.place_of(tick), row_of(processes), tick)
    } else {
        Ok(())
    }
}

fn push_tick_line(text: &mut String, x: usize, bottom: usize, tick: usize) -> Pushed
    ensures { Adds result text.old text.new (tick_line x bottom tick) }
{
    write!(
        text,
        "<path class=\"tick\" d=\"M{x} 36V{bottom}\"/>\n<text class=\"mark\" x=\"{x}\" y=\"32\">{tick}</text>\n"
    )
}

/// What the colours mean, and the end of the picture.
pub(crate) fn push_legend(text: &mut String, processes: usize) -> Pushed
    requires { processes < 2 ^ 16 }
    ensures { Adds result text.old text.new (spec.legend processes) }
{
    push_legend_front(text, row_of(processes) + 20)?;
    text.push_str(legend_text())?;
    Ok(())
}

fn push_legend_front(text: &mut String, y: usize) -> Pushed
    ensures { Adds result text.old text.new (legend_front y) }
{
    write!(text, "<g transform=\"translate(12,{y})\">\n")
}

fn legend_text() -> &'static str
    ensures { result.now ≡ legend_text }
{
    "<rect class=\"get\" width=\"16\" height=\"16\"/><text x=\"22\" y=\"12\">get</text>\n\
     <rect class=\"put\" x=\"60\" width=\"16\" height=\"16\"/><text x=\"82\" y=\"12\">put</text>\n\
     <rect class=\"empty\" x=\"120\" width=\"16\" height=\"16\"/><text x=\"142\" y=\"12\">waits for an item</text>\n\
     <rect class=\"full\" x=\"256\" width=\"16\" height=\"16\"/><text x=\"278\" y=\"12\">waits for room</text>\n\
     <path class=\"grow\" d=\"M384 4l5 8h-10z\"/><text x=\"396\" y=\"12\">channel grows</text>\n</g>\n</svg>\n"
}
