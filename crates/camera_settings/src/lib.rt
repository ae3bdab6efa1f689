// The settings of a processing unit that are turned by hand, and the requests that ask for them and set them, with the class's numbers.
#![tactic(auto)]

ghost use Rattle.std.specs.Prelude.{◌≡◌, ◌<◌};
ghost use Rattle.camera_settings.specs.Numbers.{selector_of, bit_of, is_signed, code_of, type_of, SettingIs, RequestIs};

// The control selectors of the four settings.
const BRIGHTNESS: u8 = 0x02;

const CONTRAST: u8 = 0x03;

const HUE: u8 = 0x06;

const SATURATION: u8 = 0x07;

// The request codes.
const SET_CUR: u8 = 0x01;

const GET_CUR: u8 = 0x81;

const GET_MIN: u8 = 0x82;

const GET_MAX: u8 = 0x83;

const GET_RES: u8 = 0x84;

const GET_DEF: u8 = 0x87;

// The types of a class request to an interface: to the camera, and from it.
const SET: u8 = 0x21;

const GET: u8 = 0xA1;

// A setting: a control of a processing unit with a number of 16 bits.
#[derive(Clone, Copy)]
pub enum Setting {
    Brightness,
    Contrast,
    Hue,
    Saturation,
}

#[derive(Clone, Copy)]
pub enum Request {
    GetCur,
    GetMin,
    GetMax,
    GetRes,
    GetDef,
    SetCur,
}

// The control selector.
pub fn selector_of(setting: Setting) -> u8
    ensures { result ≡ selector_of setting }
{
    match setting {
        Setting::Brightness => BRIGHTNESS,
        Setting::Contrast => CONTRAST,
        Setting::Hue => HUE,
        Setting::Saturation => SATURATION,
    }
}

// The setting's bit in the unit's control map.
pub fn bit_of(setting: Setting) -> u8
    ensures { (result ≡ bit_of setting) × (result < 8) }
{
    match setting {
        Setting::Brightness => 0,
        Setting::Contrast => 1,
        Setting::Hue => 2,
        Setting::Saturation => 3,
    }
}

// Whether the setting's number is signed.
pub fn is_signed(setting: Setting) -> bool
    ensures { result ≡ is_signed setting }
{
    matches!(setting, Setting::Brightness | Setting::Hue)
}

// The request's code, bRequest.
pub fn code_of(request: Request) -> u8
    ensures { result ≡ code_of request }
{
    match request {
        Request::GetCur => GET_CUR,
        Request::GetMin => GET_MIN,
        Request::GetMax => GET_MAX,
        Request::GetRes => GET_RES,
        Request::GetDef => GET_DEF,
        Request::SetCur => SET_CUR,
    }
}

// The request's type, bmRequestType: a class request to an interface, from the camera or to it. (A table of the class beside that of codes: two columns, no twins.)
pub fn type_of(request: Request) -> u8
    ensures { result ≡ type_of request }
{
    match request {
        Request::GetCur => GET,
        Request::GetMin => GET,
        Request::GetMax => GET,
        Request::GetRes => GET,
        Request::GetDef => GET,
        Request::SetCur => SET,
    }
}

// The setting that has a selector.
pub fn setting_of(selector: u8) -> Option<Setting>
    ensures { SettingIs selector result }
{
    match selector {
        BRIGHTNESS => Some(Setting::Brightness),
        CONTRAST => Some(Setting::Contrast),
        HUE => Some(Setting::Hue),
        SATURATION => Some(Setting::Saturation),
        _ => None,
    }
}

// The request that has a code.
pub fn request_of(code: u8) -> Option<Request>
    ensures { RequestIs code result }
{
    match code {
        GET_CUR => Some(Request::GetCur),
        GET_MIN => Some(Request::GetMin),
        GET_MAX => Some(Request::GetMax),
        GET_RES => Some(Request::GetRes),
        GET_DEF => Some(Request::GetDef),
        SET_CUR => Some(Request::SetCur),
        _ => None,
    }
}
